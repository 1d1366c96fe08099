// What every crate counts with: two bytes as one number, a byte's hex digits, and runs of bytes.
#![tactic(auto)]

mod runs;

ghost use Rattle.std.specs.Prelude.{◌≡◌, ◌/◌, ◌%◌, ◌<◌};
ghost use Rattle.basics.specs.Bytes.{low_first, low_byte, high_byte};
ghost use Rattle.basics.specs.Hex.{hex_char};

pub use runs::{copy, find};

// Two bytes as one number, the low one first.
pub fn low_first(low: u8, high: u8) -> u16
    ensures { result ≡ low_first low high }
{
    u16::from_le_bytes([low, high])
}

pub fn low_byte(w: u16) -> u8
    ensures { result ≡ low_byte w }
{
    w.to_le_bytes()[0]
}

pub fn high_byte(w: u16) -> u8
    ensures { result ≡ high_byte w }
{
    w.to_le_bytes()[1]
}

// The capital hex digit of a number below 16.
fn hex_char(n: u8) -> u8
    requires { n < 16 }
    ensures { result ≡ hex_char n }
{
    if n < 10 { b'0' + n } else { b'A' - 10 + n }
}

pub fn high_char(b: u8) -> u8
    ensures { result ≡ hex_char (b / 16) }
{
    hex_char(b / 16)
}

pub fn low_char(b: u8) -> u8
    ensures { result ≡ hex_char (b % 16) }
{
    hex_char(b % 16)
}
