// What each event on the two wires does.
ghost use Rattle.std.specs.Prelude.{◌≡◌, ℕ, ◌+◌, ◌<◌, ◌≤◌};
ghost use Rattle.two_wire.specs.Span.{offset, following, counted};
ghost use Rattle.two_wire.specs.Region.{both, Right};
ghost use Rattle.two_wire.specs.Event.{event_of, answered, refuses, enters, started, device, addressed, sent, stopped, read_on, read, on_event, does, Did, Says};

use crate::answer::{BusAnswer, Refusal, Reply};
use crate::gathered::store;
use crate::record::{BusRecord, Phase};
use crate::region::{Buffer, MEMORY_LENGTH, in_either, region_of};
use crate::span::Span;

// The device bytes.
const WRITE_CODE: u8 = 0xA0;

const READ_CODE: u8 = 0xA1;

// What a read gives where there is nothing to read.
const NO_BYTE: u8 = 0xFF;

#[derive(Clone, Copy)]
pub enum Event {
    Start,
    Stop,
    Sent,
    ReadAck,
    ReadLast,
}

impl TryFrom<u8> for Event {
    type Error = Refusal;

    ghost try_from_gives = { λ number event. event ≡ event_of number };

    fn try_from(number: u8) -> Result<Event, Refusal> {
        match number {
            0 => Ok(Event::Start),
            1 => Ok(Event::Stop),
            2 => Ok(Event::Sent),
            3 => Ok(Event::ReadAck),
            4 => Ok(Event::ReadLast),
            _ => Err(Refusal::WrongEvent),
        }
    }
}

// An answer, and the record to keep.
#[derive(Clone, Copy)]
pub struct BusStep {
    pub answer: BusAnswer,
    pub bus: BusRecord,
}

// A reply, and the record to keep as it is. Its numbers are made here: made behind all events, they cost a fifth more instructions.
fn answered(reply: Reply, bus: BusRecord) -> BusStep
    ensures { Says (answered reply bus) result }
{
    BusStep {
        answer: BusAnswer::from(reply),
        bus,
    }
}

fn refused(refusal: Refusal, bus: BusRecord) -> BusStep
    ensures { Says (refuses refusal bus) result }
{
    BusStep {
        answer: BusAnswer::from(refusal),
        bus,
    }
}

// A reply, and the record in another phase, with nothing gathered.
fn enters(reply: Reply, rec: BusRecord, phase: Phase, counter: u16) -> BusStep
    ensures { Says (enters reply rec phase counter) result }
{
    answered(reply, rec.holding(phase, 0, counter))
}

fn start(rec: BusRecord) -> BusStep
    ensures { Says (started rec) result }
{
    enters(Reply::Nothing, rec, Phase::Device, rec.counter)
}

// The device byte.
#[tactic(auto, unfolding(crate::specs::Event::device))]
fn take_device(rec: BusRecord, byte: u8) -> BusStep
    ensures { Says (device rec byte) result }
{
    match byte {
        WRITE_CODE => enters(Reply::Acknowledged, rec, Phase::High, rec.counter),
        READ_CODE => enters(Reply::Acknowledged, rec, Phase::Reading, rec.counter),
        _ => enters(Reply::Declined, rec, Phase::Deaf, rec.counter),
    }
}

#[tactic(auto, unfolding(crate::specs::Event::addressed))]
fn take_address(n: usize, rec: BusRecord, address: u16) -> BusStep
    requires { n ≤ 231 }
    ensures { Says (addressed n rec address) result }
{
    if in_either(n, address) {
        enters(Reply::Acknowledged, rec, Phase::Writing, address)
    } else {
        enters(Reply::Declined, rec, Phase::Deaf, rec.counter)
    }
}

// A byte sent. Most are data bytes, so that these are asked for first, which was counted: their arm below, which the match must have, is then
// not come to.
#[tactic(auto, using(crate::proofs::Laws::phase_is), unfolding(crate::specs::Event::sent))]
fn take_byte(n: usize, rec: BusRecord, byte: u8) -> BusStep
    requires { n ≤ 231 }
    ensures { Says (sent n rec byte) result }
{
    if rec.is_in(Phase::Writing) {
        return answered(Reply::Acknowledged, rec.gathers(byte));
    }
    match Phase::from(rec.phase) {
        Phase::Device => take_device(rec, byte),
        Phase::High => answered(
            Reply::Acknowledged,
            rec.holding(Phase::Low, byte, rec.counter),
        ),
        Phase::Low => take_address(n, rec, basics::low_first(byte, rec.held)),
        Phase::Writing => answered(Reply::Acknowledged, rec.gathers(byte)),
        Phase::Reading => enters(Reply::Declined, rec, Phase::Deaf, rec.counter),
        Phase::Rest | Phase::Deaf => answered(Reply::Declined, rec),
    }
}

// The buffers and the image's pages come one by one, here and below. In a struct of the three, which was tried, what they have in common would
// be a ghost field, but a clause would name what a buffer ends as `lent.exit.0.now`.
#[tactic(auto, using(crate::proofs::Laws::right_fits, crate::proofs::Laws::right_most, crate::proofs::Laws::left), unfolding(crate::specs::Event::stopped, crate::specs::Event::after))]
fn stop(image: &mut [u8], memory: &mut [u8], n: usize, rec: BusRecord) -> BusStep
    requires { Right n (both image.old memory.old) }
    ensures { Did (stopped n rec) result (both image.old memory.old) (both image.new memory.new) }
{
    if rec.is_in(Phase::Writing) {
        store(image, memory, region_of(n, rec.counter), rec);
        enters(Reply::Nothing, rec, Phase::Rest, rec.counter_after())
    } else {
        enters(Reply::Nothing, rec, Phase::Rest, rec.counter)
    }
}

// The byte of a span that the counter counts as, and the counter after it. What gives the byte is a closure and not a choice of the two: the
// compiler then makes one way of each region. One way for both was counted: 94,870 instructions for a bus read, which are 90,251 so.
fn give<F: FnOnce(usize) -> u8>(span: Span, rec: BusRecord, then: Phase, byte_at: F) -> BusStep
    requires readable { F.pre byte_at (offset span (counted span rec.counter)) }
    requires inside { offset span (counted span rec.counter) < span.length }
    requires ends { span.first + span.length ≤ 0xFFFF }
    ensures { let at = offset span (counted span rec.counter) in (b : ℕ) × F.post byte_at at b × Says (enters (Reply.Byte b) rec then (following span (span.first + at))) result }
{
    let at = span.byte_counted(rec.counter);
    let byte = byte_at(at);
    enters(Reply::Byte(byte), rec, then, span.following(at))
}

// A byte read while the tag gives them; it then goes on in another phase.
#[tactic(auto, using(crate::proofs::Laws::right_fits, crate::proofs::Laws::right_most))]
fn read_on(image: &[u8], memory: &[u8], n: usize, rec: BusRecord, then: Phase) -> BusStep
    requires { Right n (both image.now memory.now) }
    ensures { Says (read_on then n (both image.now memory.now) rec) result }
{
    let region = region_of(n, rec.counter);
    let span = region.span;
    match region.buffer {
        Buffer::Image => give(span, rec, then, |at| image::shown::shown(image, n, at)),
        Buffer::Memory => give(span, rec, then, |at| memory[at]),
    }
}

// A byte read.
#[tactic(auto, unfolding(crate::specs::Event::read))]
fn read(image: &[u8], memory: &[u8], n: usize, rec: BusRecord, then: Phase) -> BusStep
    requires { Right n (both image.now memory.now) }
    ensures { Says (read then n (both image.now memory.now) rec) result }
{
    if rec.is_in(Phase::Reading) {
        read_on(image, memory, n, rec, then)
    } else {
        answered(Reply::Byte(NO_BYTE), rec)
    }
}

#[tactic(auto, using(crate::proofs::Laws::right_most))]
fn on_event(
    image: &mut [u8],
    memory: &mut [u8],
    n: usize,
    rec: BusRecord,
    event: Event,
    byte: u8,
) -> BusStep
    requires { Right n (both image.old memory.old) }
    ensures { Did (on_event n (both image.old memory.old) rec event byte) result (both image.old memory.old) (both image.new memory.new) }
{
    match event {
        Event::Start => start(rec),
        Event::Stop => stop(image, memory, n, rec),
        Event::Sent => take_byte(n, rec, byte),
        Event::ReadAck => read(image, memory, n, rec, Phase::Reading),
        Event::ReadLast => read(image, memory, n, rec, Phase::Deaf),
    }
}

// An event on the two wires, by value: all the work. The refusals come in the order in which they are tested. That they are found by a call
// of its own, with `?`, was counted: 2,349 instructions for a bus write and 94,906 for a bus read, which are 2,244 and 90,251 so.
pub fn step(image: &mut [u8], memory: &mut [u8], rec: BusRecord, event: u8, byte: u8) -> BusStep
    ensures { Did (does (both image.old memory.old) rec event byte) result (both image.old memory.old) (both image.new memory.new) }
{
    let Some(n) = image::layout::size_of(image.len()) else {
        return refused(Refusal::WrongImage, rec);
    };
    let is_whole = memory.len() == MEMORY_LENGTH;
    if !is_whole {
        return refused(Refusal::WrongMemory, rec);
    }
    match Event::try_from(event) {
        Ok(event) => on_event(image, memory, n, rec, event, byte),
        Err(refusal) => refused(refusal, rec),
    }
}
