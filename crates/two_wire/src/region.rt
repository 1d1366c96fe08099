// The regions of addresses: the window on the image, and the data memory. Both have the same rules.
ghost use Rattle.std.specs.Prelude.{◌≡◌, ◌≤◌};
ghost use Rattle.two_wire.specs.Region.{region_of, in_either};

use crate::span::Span;
use crate::window::window;

// A lent buffer.
#[derive(Clone, Copy)]
pub enum Buffer {
    Image,
    Memory,
}

// Addresses, and the buffer that has their bytes.
#[derive(Clone, Copy)]
pub struct Region {
    pub buffer: Buffer,
    pub span: Span,
}

// The bytes of the data memory.
pub const MEMORY_LENGTH: usize = 16384;

const MEMORY: Span = Span {
    first: 0,
    length: MEMORY_LENGTH,
    kept: 0,
};

// The region that an address belongs to: the window, unless it is one of the data memory.
#[tactic(auto, unfolding(crate::specs::Region::region_of))]
pub fn region_of(n: usize, address: u16) -> Region
    requires { n ≤ 231 }
    ensures { result ≡ region_of n address }
{
    if MEMORY.within(address) {
        Region {
            buffer: Buffer::Memory,
            span: MEMORY,
        }
    } else {
        Region {
            buffer: Buffer::Image,
            span: window(n),
        }
    }
}

// The window begins where the data memory ends, so that one test tells of both.
#[tactic(auto, using(crate::proofs::Laws::either_below))]
pub fn in_either(n: usize, address: u16) -> bool
    requires { n ≤ 231 }
    ensures { result ≡ in_either n address }
{
    usize::from(address) < MEMORY_LENGTH + 4 * n
}
