// Where a stop stores the gathered bytes.
ghost use Rattle.std.specs.Prelude.{◌≡◌, ◌≤◌, length};
ghost use Rattle.two_wire.specs.Region.{both, bytes_in};
ghost use Rattle.two_wire.specs.Gathered.{landed_at, landed, stored_in};

use crate::record::BusRecord;
use crate::region::{Buffer, Region};
use crate::span::Span;
use crate::window::{page_of, place_after};

// A gathered byte, stored at its address.
#[tactic(auto, unfolding(crate::specs::Span::stores, crate::specs::Span::within, crate::specs::Gathered::landed_at))]
fn land_at(buffer: &mut [u8], span: Span, address: u16, byte: u8)
    requires { span.length ≤ length buffer.old }
    ensures { buffer.new ≡ landed_at span address byte buffer.old }
{
    if span.within(address) && span.kept <= span.offset(address) {
        buffer[span.offset(address)] = byte;
    }
}

// The gathered bytes, stored in the page of the address sent.
#[tactic(auto, using(crate::proofs::Laws::landed_more, crate::proofs::Laws::length_landed_at), unfolding(crate::specs::Gathered::landed, crate::specs::Gathered::landed_to))]
fn land(buffer: &mut [u8], span: Span, rec: BusRecord)
    requires { span.length ≤ length buffer.old }
    ensures { buffer.new ≡ landed span rec buffer.old }
{
    let page = page_of(rec.counter);
    for k in 0..rec.gathered() {
        let place = place_after(rec.counter, k);
        land_at(
            buffer,
            span,
            page + u16::from(place),
            rec.bytes[usize::from(place)],
        );
    }
}

// The gathered bytes, stored in the buffer of a region.
pub fn store(image: &mut [u8], memory: &mut [u8], region: Region, rec: BusRecord)
    requires { region.span.length ≤ length (bytes_in region.buffer (both image.old memory.old)) }
    ensures { both image.new memory.new ≡ stored_in region.buffer region.span rec (both image.old memory.old) }
{
    match region.buffer {
        Buffer::Image => land(image, region.span, rec),
        Buffer::Memory => land(memory, region.span, rec),
    }
}
