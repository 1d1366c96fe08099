// The bus-event call under its C name, for a controller's firmware: include/corridor_tag.h declares it. It is two_wire's call, with its
// contract.
#![tactic(auto)]

ghost use Rattle.two_wire.specs.Region.{both};
ghost use Rattle.two_wire.specs.Event.{does, Did};

use two_wire::{BusAnswer, BusRecord};

// An event on the two wires. The pin driver lends its record, which is updated where the driver has it.
#[unsafe(no_mangle)]
pub extern "C" fn corridor_bus_event(
    rec: &mut BusRecord,
    image: &mut [u8],
    memory: &mut [u8],
    event: u8,
    byte: u8,
) -> BusAnswer
    ensures { Did (does (both image.old memory.old) rec.old event byte) (record { answer = result; bus = rec.new }) (both image.old memory.old) (both image.new memory.new) }
{
    two_wire::corridor_bus_event(rec, image, memory, event, byte)
}
