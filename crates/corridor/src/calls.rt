// The calls to the tag, on the parts of the program's buffers that they are lent, and what their outcomes tell.
ghost use Rattle.std.specs.Prelude.{◌≡◌, List, ℕ, ◌≤◌, min, length, take};
ghost use Rattle.tag.specs.Outcome.{bits_of, answer_of};
ghost use Rattle.radio.specs.Call.{Called};
ghost use Rattle.two_wire.specs.declared.record.BusRecord.{BusRecord as Bus};
ghost use Rattle.two_wire.specs.Region.{Lent, both};
ghost use Rattle.two_wire.specs.Event.{does, Did};
ghost use Rattle.lines.specs.Told.{tells, bytes_in, AnswerFits};
ghost use Rattle.corridor.specs.Acts.{Says};
ghost use Rattle.corridor.specs.Played.{call_told, event_told, wait_told, tag_told, bus_told};

use lines::write::{Answer, Word};
use tag::record::TagRecord;
use tag::state::{State, Tag, Wait};
use two_wire::{BusAnswer, BusRecord, BusStep, Phase};

// What a frame is answered by: a refusal, silence, or bits. The frame call's numbers are those of the C interface.
#[tactic(auto, unfolding(crate::specs::Played::call_told, crate::specs::Played::reply_told))]
pub fn frame_told(heard: radio::Answer) -> Answer
    requires { heard.bits ≤ 8192 }
    ensures fits { AnswerFits result }
    ensures told { (c : Called) (buf img : List ℕ) → heard.refused ≡ c.refused → heard.bits ≡ bits_of c.reply → take (bytes_in heard.bits) buf ≡ answer_of c.reply → tells result buf img ≡ call_told c }
{
    if heard.refused != 0 {
        return Answer::Refused(heard.refused);
    }
    if heard.bits == 0 {
        return Answer::Silence;
    }
    Answer::Bits(heard.bits)
}

// The bus event on the first `size` bytes of `image` and the first `room` of `memory`.
pub fn step_on(
    image: &mut [u8],
    size: usize,
    memory: &mut [u8],
    room: usize,
    bus: BusRecord,
    number: u8,
    byte: u8,
) -> BusStep
    requires { (size ≤ length image.old) × (room ≤ length memory.old) }
    ensures { Did (does (both (take size image.old) (take room memory.old)) bus number byte) result (both (take size image.old) (take room memory.old)) (both (take size image.new) (take room memory.new)) }
{
    two_wire::step(&mut image[..size], &mut memory[..room], bus, number, byte)
}

// A number that is no u8 is no event either, and 255 stands for it.
#[tactic(auto, using(crate::proofs::Laws::byte_or_more))]
pub fn event_number(number: usize) -> u8
    ensures { (l : Lent) (bus : Bus) (byte : ℕ) → does l bus result byte ≡ does l bus number byte }
{
    u8::try_from(number).unwrap_or(255)
}

// What an event is answered by: numbers, as the C interface has them.
#[tactic(auto, unfolding(crate::specs::Played::event_told, crate::specs::Played::kind_told))]
pub fn event_told(answer: BusAnswer) -> Answer
    ensures { Says (event_told answer) result }
{
    if answer.refused != 0 {
        return Answer::Refused(answer.refused);
    }
    match (answer.kind, answer.value) {
        (0, _) => Answer::Done,
        (1, 0) => Answer::Declined,
        (1, _) => Answer::Acknowledged,
        (_, value) => Answer::Byte(value),
    }
}

// The state to go back to.
fn wait_told(wait: Wait) -> Word
    ensures { result ≡ wait_told wait }
{
    match wait {
        Wait::ToIdle => Word::Idle,
        Wait::ToHalt => Word::Halt,
    }
}

// Where a tag stands. What a record without a meaning counts as is the tag's to say.
#[tactic(auto, unfolding(crate::specs::Played::tag_told))]
pub fn tag_told(rec: TagRecord) -> Answer
    ensures { Says (tag_told rec) result }
{
    let tag = Tag::from(rec);
    let state = tag.state;
    let answered = tag.answered;
    match state {
        State::Idle => Answer::Tag(Word::Idle, answered),
        State::Halt => Answer::Tag(Word::Halt, answered),
        State::Ready1(w) => Answer::TagBack(Word::Ready1, wait_told(w), false, answered),
        State::Ready2(w) => Answer::TagBack(Word::Ready2, wait_told(w), false, answered),
        State::Active(w, a) => Answer::TagBack(Word::Active, wait_told(w), a, answered),
    }
}

// How many places are gathered: from 64 data bytes on, every one.
fn places_told(held: u8) -> u8
    ensures { result ≡ min held 64 }
{
    held.min(64)
}

// Where a bus stands. What a number that is no phase's counts as is the two wires' to say.
#[tactic(auto, unfolding(crate::specs::Played::bus_told))]
pub fn bus_told(rec: BusRecord) -> Answer
    ensures { Says (bus_told rec) result }
{
    let counter = rec.counter;
    let held = rec.held;
    match Phase::from(rec.phase) {
        Phase::Rest => Answer::Bus(Word::Rest, counter),
        Phase::Device => Answer::Bus(Word::Device, counter),
        Phase::High => Answer::Bus(Word::High, counter),
        Phase::Low => Answer::BusLow(counter, held),
        Phase::Writing => Answer::BusWriting(counter, places_told(held)),
        Phase::Reading => Answer::Bus(Word::Reading, counter),
        Phase::Deaf => Answer::Bus(Word::Deaf, counter),
    }
}
