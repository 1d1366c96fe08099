// The calls of the radio side: a frame, the field loss, and the record to begin with.
ghost use Rattle.std.specs.Prelude.{◌≡◌, true, false, ◌≤◌, length, MatchOption, leb};
ghost use Rattle.tag.specs.Outcome.{answer_room};
ghost use Rattle.tag.specs.State.{field_off};
ghost use Rattle.tag.specs.Record.{record_of, field_loss};
ghost use Rattle.radio.specs.Call.{padded, is_frame, called, Met};
ghost use Rattle.radio.specs.Told.{number_of, told};

use crate::hear::hear;
use image::layout::size_of;
use selection::Frame;
use tag::outcome::{ANSWER_ROOM, Step};
use tag::record::TagRecord;
use tag::state::Tag;

// Why a frame call is refused.
#[derive(Clone, Copy)]
pub enum Refusal {
    ImageLength,
    AnswerRoom,
    NoFrame,
}

// Its number.
impl From<Refusal> for u8 {
    ghost from_gives = { λ refusal number. number ≡ number_of refusal };

    fn from(refusal: Refusal) -> u8 {
        match refusal {
            Refusal::ImageLength => 1,
            Refusal::AnswerRoom => 2,
            Refusal::NoFrame => 3,
        }
    }
}

// What the frame call answers, in C too, so that it is numbers: that of its refusal or 0, the answer's bit count, and the record to keep.
#[repr(C)]
#[derive(Clone, Copy)]
pub struct Answer {
    pub refused: u8,
    pub bits: usize,
    pub left: TagRecord,
}

// The record of "field off".
pub fn field_off() -> TagRecord
    ensures { result ≡ record_of field_off }
{
    TagRecord::from(Tag::field_off())
}

// The field is lost.
#[tactic(auto, unfolding(tag::specs::Record::field_loss))]
pub fn field_loss(rec: TagRecord) -> TagRecord
    ensures { result ≡ field_loss rec }
{
    TagRecord::from(Tag::from(rec).field_lost())
}

// Whether the bits of the last byte above the count are zeros.
#[tactic(auto, using(crate::proofs::Laws::shifted_out), unfolding(crate::specs::Call::padded))]
fn is_padded(bytes: &[u8], bits: usize) -> bool
    ensures { result ≡ padded bytes.now bits }
{
    let over = bits % 8;
    over == 0 || bytes.get(bits / 8).copied().unwrap_or(0) >> over == 0
}

#[tactic(auto, unfolding(crate::specs::Call::is_frame))]
fn is_frame(bytes: &[u8], bits: usize) -> bool
    ensures { result ≡ is_frame bytes.now bits }
{
    1 <= bits && bits <= 512 && bytes.len() == (bits + 7) / 8 && is_padded(bytes, bits)
}

// The frame, if it is one.
#[tactic(auto, using(crate::proofs::Laws::frame_whole))]
fn framed(bytes: &[u8], bits: usize, parity: bool) -> Option<Frame>
    ensures { MatchOption result (is_frame bytes.now bits ≡ false) (λ frame. (is_frame bytes.now bits ≡ true) × (frame.bytes.now ≡ bytes.now) × (frame.bits ≡ bits) × (frame.parity ≡ parity)) }
{
    if is_frame(bytes, bits) {
        Some(Frame {
            bytes,
            bits,
            parity,
        })
    } else {
        None
    }
}

fn has_room(answer: &[u8]) -> bool
    ensures { result ≡ leb answer_room (length answer.now) }
{
    ANSWER_ROOM <= answer.len()
}

// What is left of a frame, unless the call is refused.
fn left(
    image: &mut [u8],
    answer: &mut [u8],
    rec: TagRecord,
    bytes: &[u8],
    bits: usize,
    parity: bool,
) -> Result<Step, Refusal>
    ensures { Met (called image.old (length answer.old) rec bytes.now bits parity) (told result rec) image.old image.new answer.old answer.new }
{
    let n = size_of(image.len()).ok_or(Refusal::ImageLength)?;
    if !has_room(answer) {
        return Err(Refusal::AnswerRoom);
    }
    let frame = framed(bytes, bits, parity).ok_or(Refusal::NoFrame)?;
    Ok(hear(image, answer, n, Tag::from(rec), frame))
}

// A frame of `bits` bits was heard, with good parity or not. The answer stands at the start of the answer buffer, which has to have room
// for 1,024 bytes; what it did to the image is done.
pub fn frame(
    image: &mut [u8],
    answer: &mut [u8],
    rec: TagRecord,
    frame: &[u8],
    bits: usize,
    parity: bool,
) -> Answer
    ensures { Met (called image.old (length answer.old) rec frame.now bits parity) result image.old image.new answer.old answer.new }
{
    match left(image, answer, rec, frame, bits, parity) {
        Ok(step) => Answer {
            refused: 0,
            bits: step.bits,
            left: TagRecord::from(step.tag),
        },
        Err(refusal) => Answer {
            refused: u8::from(refusal),
            bits: 0,
            left: rec,
        },
    }
}
