// The tag's side of the two wires: what each event that the pin driver sees does to the bus record, the image and the data memory, and what
// it answers.
#![tactic(auto)]

mod answer;
mod event;
mod gathered;
mod record;
mod region;
mod span;
mod window;

ghost use Rattle.two_wire.specs.Region.{both};
ghost use Rattle.two_wire.specs.Event.{does, Did};

pub use answer::BusAnswer;
pub use event::{BusStep, step};
pub use record::{BusRecord, Phase, bus_at_rest};
pub use region::MEMORY_LENGTH;

// An event on the two wires. The pin driver lends its record, which is updated where the driver has it, over a step by value: document 01 names
// this form. two_wire_c exports it to C under the same name.
pub fn corridor_bus_event(
    rec: &mut BusRecord,
    image: &mut [u8],
    memory: &mut [u8],
    event: u8,
    byte: u8,
) -> BusAnswer
    ensures { Did (does (both image.old memory.old) rec.old event byte) (record { answer = result; bus = rec.new }) (both image.old memory.old) (both image.new memory.new) }
{
    let b = *rec;
    let s = step(image, memory, b, event, byte);
    *rec = s.bus;
    s.answer
}
