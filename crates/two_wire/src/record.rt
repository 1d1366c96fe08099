// The bus record: its phase, and the records that the events leave.
ghost use Rattle.std.specs.Prelude.{◌≡◌, ◌≤◌};
ghost use Rattle.two_wire.specs.Record.{number_of, phase_of, is_in, holding, at_rest, one_more, gathers};
ghost use Rattle.two_wire.specs.Gathered.{gathered, counter_after};

use crate::window::{FIRST, page_of, place_after};

// What the tag waits for.
#[derive(Clone, Copy)]
pub enum Phase {
    Rest,
    Device,
    High,
    Low,
    Writing,
    Reading,
    Deaf,
}

impl From<Phase> for u8 {
    ghost from_gives = { λ phase number. number ≡ number_of phase };

    fn from(phase: Phase) -> u8 {
        match phase {
            Phase::Rest => 0,
            Phase::Device => 1,
            Phase::High => 2,
            Phase::Low => 3,
            Phase::Writing => 4,
            Phase::Reading => 5,
            Phase::Deaf => 6,
        }
    }
}

impl From<u8> for Phase {
    ghost from_gives = { λ number phase. phase ≡ phase_of number };

    #[tactic(auto, unfolding(crate::specs::Record::phase_of))]
    fn from(number: u8) -> Phase {
        match number {
            1 => Phase::Device,
            2 => Phase::High,
            3 => Phase::Low,
            4 => Phase::Writing,
            5 => Phase::Reading,
            6 => Phase::Deaf,
            _ => Phase::Rest,
        }
    }
}

// The bus record, which the pin driver holds between two events, in C too, so that it is numbers: that of its phase; what the phase holds,
// which is the high address byte until the low one comes, and then the count of data bytes; the counter, an address, which is the address sent
// while data bytes come; and the gathered bytes, each at its place of the 64-byte page.
#[repr(C)]
#[derive(Clone, Copy)]
pub struct BusRecord {
    pub phase: u8,
    pub held: u8,
    pub counter: u16,
    pub bytes: [u8; 64],
}

// The record at rest that a driver begins with. Every other record is made from the one that came in.
pub fn bus_at_rest() -> BusRecord
    ensures { result ≡ at_rest }
{
    BusRecord {
        phase: u8::from(Phase::Rest),
        held: 0,
        counter: FIRST,
        bytes: [0; 64],
    }
}

impl BusRecord {
    pub fn is_in(self, phase: Phase) -> bool
        ensures { result ≡ is_in phase self }
    {
        self.phase == u8::from(phase)
    }

    // The record in another phase, with what the phase holds, at a counter, and with no bytes.
    #[tactic(auto, unfolding(crate::specs::Record::holding))]
    pub fn holding(self, phase: Phase, held: u8, counter: u16) -> BusRecord
        ensures { result ≡ holding self phase held counter }
    {
        BusRecord {
            phase: u8::from(phase),
            held,
            counter,
            bytes: [0; 64],
        }
    }

    // The record with one more data byte. It is set in a copy of the bytes alone: set in the record, all are copied once more, which was counted.
    #[tactic(auto, unfolding(crate::specs::Record::gathers))]
    pub fn gathers(self, byte: u8) -> BusRecord
        ensures { result ≡ gathers self byte }
    {
        let place = usize::from(place_after(self.counter, self.held));
        let mut bytes = self.bytes;
        bytes[place] = byte;
        BusRecord {
            held: one_more(self.held),
            bytes,
            ..self
        }
    }

    // How many places are gathered.
    pub fn gathered(self) -> u8
        ensures { (result ≡ gathered self) × (result ≤ 64) }
    {
        self.held.min(64)
    }

    // The counter that a stop leaves.
    #[tactic(auto, unfolding(crate::specs::Gathered::counter_after))]
    pub fn counter_after(self) -> u16
        ensures { result ≡ counter_after self }
    {
        if self.held == 0 {
            self.counter
        } else {
            page_of(self.counter) + u16::from(place_after(self.counter, self.held))
        }
    }
}

// The count of data bytes after one more.
#[tactic(auto, unfolding(crate::specs::Record::one_more))]
fn one_more(count: u8) -> u8
    ensures { result ≡ one_more count }
{
    if count < 64 {
        count + 1
    } else {
        64 + (count % 64 + 1) % 64
    }
}
