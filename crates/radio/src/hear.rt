// What a frame does, by the tag's state.
ghost use Rattle.std.specs.Prelude.{◌≡◌};
ghost use Rattle.tag.specs.Outcome.{Did, Room};
ghost use Rattle.radio.specs.Heard.{is_read_zero, hearing, heard};

use basics::low_first;
use selection::Frame;
use tag::outcome::Step;
use tag::state::{State, Tag};

// Whether a frame is a whole READ of page 00h with good parity: 30h 00h, and their CRC_A, 02h A8h.
#[tactic(auto, using(crate::proofs::Hearing::read_zero))]
fn is_read_zero(frame: Frame) -> bool
    ensures { result ≡ is_read_zero frame.entry.bytes.now frame.entry.bits frame.entry.parity }
{
    let bytes = frame.bytes;
    frame.bits == 32
        && low_first(bytes[0], bytes[1]) == 0x0030
        && low_first(bytes[2], bytes[3]) == 0xA802
        && frame.parity
}

// In READY1 and READY2: a READ of page 00h is heard in ACTIVE.
#[tactic(auto, unfolding(crate::specs::Heard::hearing))]
fn from_ready(state: State, frame: Frame) -> State
    ensures { result ≡ hearing state frame.entry.bytes.now frame.entry.bits frame.entry.parity }
{
    if is_read_zero(frame) {
        state.activated()
    } else {
        state
    }
}

// The state in which a frame is heard. A READ leads from no other state to ACTIVE, so that no frame is looked at there.
// An arm for each state: by two arms, with `|`, REQA took 185 instructions and READ 372, counted, for 164 and 356 so.
#[tactic(auto, using(crate::proofs::Hearing::hearing_kept))]
fn hearing(state: State, frame: Frame) -> State
    ensures { result ≡ hearing state frame.entry.bytes.now frame.entry.bits frame.entry.parity }
{
    match state {
        State::Idle => state,
        State::Halt => state,
        State::Ready1(_) => from_ready(state, frame),
        State::Ready2(_) => from_ready(state, frame),
        State::Active(_, _) => state,
    }
}

pub fn hear(image: &mut [u8], answer: &mut [u8], n: usize, tag: Tag, frame: Frame) -> Step
    requires { Room n image.old answer.old }
    ensures { Did (heard n image.old tag frame.entry.bytes.now frame.entry.bits frame.entry.parity) result image.old image.new answer.old answer.new }
{
    let before = tag.state;
    let state = hearing(before, frame);
    // ACTIVE alone can be another state than the tag's own.
    match state {
        State::Idle => selection::idle(answer, tag, frame.bytes, frame.bits),
        State::Halt => selection::halt(answer, tag, frame.bytes, frame.bits),
        State::Ready1(_) => selection::ready1(image, answer, tag, frame),
        State::Ready2(_) => selection::ready2(image, answer, tag, frame),
        State::Active(_, _) => {
            let tag = tag.moved(state);
            active::active(image, answer, n, tag, frame.bytes, frame.bits, frame.parity)
        }
    }
}
