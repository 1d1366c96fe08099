// What comes out of a frame: silence, ACK and NAK, data with its CRC_A, and some bits of a number without.
ghost use Rattle.std.specs.Prelude.{◌≡◌, List, ℕ, ◌+◌, ◌^◌, ◌≤◌, ◌<◌, length};
ghost use Rattle.tag.specs.Outcome.{silence, plain, keep, low_bytes, over, does, Did, lost, nak, Acks, Says};

use crate::state::Tag;
use basics::copy;

// The smallest answer buffer that the frame call takes.
pub const ANSWER_ROOM: usize = 1024;

// What a frame leaves beside the image and the answer buffer: the answer's bit count, and the tag.
#[derive(Clone, Copy)]
pub struct Step {
    pub bits: usize,
    pub tag: Tag,
}

// No answer, whatever the image and the buffer are.
#[tactic(auto, unfolding(crate::specs::Outcome::apply, crate::specs::Outcome::bits_of, crate::specs::Outcome::answer_of, crate::specs::Outcome::over))]
pub fn silent(tag: Tag) -> Step
    ensures { (img before : List ℕ) → Did (does silence keep tag) result img img before before }
{
    Step { bits: 0, tag }
}

// No answer, and back to the wait state.
pub fn lost(tag: Tag) -> Step
    ensures { (img before : List ℕ) → Did (lost tag) result img img before before }
{
    silent(tag.moved(tag.state.back_to_wait()))
}

// An ACK, whatever it did to the image, which isn't lent.
#[tactic(auto, unfolding(crate::specs::Outcome::ack, crate::specs::Outcome::apply, crate::specs::Outcome::bits_of, crate::specs::Outcome::answer_of, crate::specs::Outcome::over))]
pub fn ack(answer: &mut [u8], tag: Tag) -> Step
    requires { 1 ≤ length answer.old }
    ensures { Acks tag result answer.old answer.new }
{
    answer[0] = 0x0A;
    Step { bits: 4, tag }
}

// A NAK of this value, and back to the wait state. The image, which isn't lent, is as it was.
#[tactic(auto, unfolding(crate::specs::Outcome::nak_after, crate::specs::Outcome::apply, crate::specs::Outcome::bits_of, crate::specs::Outcome::answer_of, crate::specs::Outcome::over))]
pub fn nak(answer: &mut [u8], tag: Tag, value: u8) -> Step
    requires { (1 ≤ length answer.old) × (value < 16) }
    ensures { (img : List ℕ) → Did (nak tag value) result img img answer.old answer.new }
{
    answer[0] = value;
    Step {
        bits: 4,
        tag: tag.moved(tag.state.back_to_wait()),
    }
}

// Bytes go into the answer, from its start on.
#[tactic(auto, unfolding(crate::specs::Outcome::over))]
pub fn lay(answer: &mut [u8], from: &[u8])
    requires { length from.now ≤ length answer.old }
    ensures { answer.new ≡ over from.now answer.old }
{
    copy(from, answer);
}

// Data: the n bytes that stand at the answer's start, and their CRC_A behind them: the buffer is the caller's whole one.
#[tactic(auto, using(crate::proofs::Laws::crc_behind))]
pub fn says(answer: &mut [u8], n: usize, tag: Tag) -> Step
    requires { (n + 2 ≤ length answer.old) × (n ≤ 1022) }
    ensures { Says n tag result answer.old answer.new }
{
    crc_a::append(answer, n);
    Step {
        bits: 8 * (n + 2),
        tag,
    }
}

// The low bytes of a number go into the answer, from its start on. One by one: copied as a slice of so many bytes they cost a call of memcpy, and the
// library makes no other.
fn lay_number(answer: &mut [u8], v: u64, count: usize)
    requires { (count ≤ 8) × (count ≤ length answer.old) }
    ensures { answer.new ≡ over (low_bytes count v) answer.old }
{
    let mut rest = v;
    for i in 0..count {
        answer[i] = (rest % 256) as u8;
        rest /= 256;
    }
}

// An answer of some bits of a number, without CRC_A.
pub fn plain(answer: &mut [u8], tag: Tag, bits: usize, v: u64) -> Step
    requires { (bits ≤ 40) × (v < 2 ^ bits) × (5 ≤ length answer.old) }
    ensures { (img : List ℕ) → Did (does (plain bits v) keep tag) result img img answer.old answer.new }
{
    lay_number(answer, v, (bits + 7) / 8);
    Step { bits, tag }
}
