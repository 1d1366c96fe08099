// The window's addresses, and the 64-byte pages of addresses.
ghost use Rattle.std.specs.Prelude.{◌≡◌, ◌<◌, ◌≤◌};
ghost use Rattle.two_wire.specs.Window.{window, page_of, place_after};

use crate::span::Span;

pub const FIRST: u16 = 0x4000;

// Image bytes that this side doesn't store.
const KEPT: usize = 10;

pub fn window(n: usize) -> Span
    requires { n ≤ 231 }
    ensures { result ≡ window n }
{
    Span {
        first: FIRST,
        length: 4 * n,
        kept: KEPT,
    }
}

// The first address of the 64-byte page of an address.
pub fn page_of(address: u16) -> u16
    ensures { (result ≡ page_of address) × (result ≤ 0xFFC0) }
{
    address / 64 * 64
}

// The place of data byte k of a write to an address, rolling over within the 64-byte page. Document 01 names the wrapping add.
pub fn place_after(address: u16, k: u8) -> u8
    ensures { (result ≡ place_after address k) × (result < 64) }
{
    let low = basics::low_byte(address);
    low.wrapping_add(k) % 64
}
