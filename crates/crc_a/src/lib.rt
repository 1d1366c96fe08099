// CRC_A, the check sum of ISO/IEC 14443-3: of a slice, behind the bytes of a buffer, and at a frame's end.
#![tactic(auto)]

ghost use Rattle.std.specs.Prelude.{◌≡◌, ◌+◌, ◌≤◌, ◌<◌, length, take};
ghost use Rattle.std.proofs.lemmas.List.Edits.{sets};
ghost use Rattle.crc_a.specs.CrcA.{shifted_by, byte_in, bytes_in, crc_a, sent, crc_right};

use basics::{high_byte, low_byte, low_first};

// Sixteen shifts of the register at once. Bit k of `out` is what shift k lets out: that of x, turned for each 1 that was let out 4 and 11 shifts before.
#[tactic(auto, using(crate::proofs::Unrolled::sixteen))]
fn sixteen_shifts(x: u16) -> u16
    ensures { result ≡ shifted_by 16 x }
{
    let a = x ^ (x << 8);
    let out = a ^ (a << 4) ^ (a << 11);
    out ^ (out >> 5) ^ (out >> 12)
}

// Thirty-two shifts at once, with four bytes in the register. Here a 1 that was let out 16 shifts before turns a bit as well.
#[tactic(auto, using(crate::proofs::Unrolled::thirty_two, crate::proofs::Unrolled::thirty_two_lt))]
fn thirty_two_shifts(x: u32) -> u16
    ensures { result ≡ shifted_by 32 x }
{
    let a = x ^ (x << 16);
    let b = a ^ (a << 8) ^ (a << 22);
    let out = b ^ (b << 4) ^ (b << 11) ^ (b << 16);
    ((out >> 16) ^ (out >> 21) ^ (out >> 28)) as u16
}

// A byte goes into the register: its eight shifts at once.
fn take_byte(c: u16, b: u8) -> u16
    ensures { result ≡ byte_in c b }
{
    let x = c ^ u16::from(b);
    (x >> 8) ^ sixteen_shifts(x << 8)
}

// Two bytes go in, the first in the low half.
#[tactic(auto, using(crate::proofs::Unrolled::two_in))]
fn take_two(c: u16, b0: u8, b1: u8) -> u16
    ensures { result ≡ byte_in (byte_in c b0) b1 }
{
    sixteen_shifts(c ^ low_first(b0, b1))
}

// Four bytes go in, the last two above the register.
#[tactic(auto, using(crate::proofs::Unrolled::four_in))]
fn take_four(c: u16, b0: u8, b1: u8, b2: u8, b3: u8) -> u16
    ensures { result ≡ byte_in (byte_in (byte_in (byte_in c b0) b1) b2) b3 }
{
    let low = u32::from(low_first(b0, b1));
    let high = u32::from(low_first(b2, b3));
    thirty_two_shifts(u32::from(c) ^ (low + 65536 * high))
}

// The last byte goes in, where there is one.
#[tactic(auto, using(crate::proofs::Laws::one_last, crate::proofs::Laws::none_last))]
fn take_last(c: u16, rest: &[u8]) -> u16
    requires { length rest.now < 2 }
    ensures { result ≡ bytes_in c rest.now }
{
    if let [b] = rest { take_byte(c, *b) } else { c }
}

// The last bytes go in, fewer than four: two of them, where there are so many, and then the last.
fn take_rest(c: u16, rest: &[u8]) -> u16
    requires { length rest.now < 4 }
    ensures { result ≡ bytes_in c rest.now }
{
    let mut register = c;
    let mut last = rest;
    if let [b0, b1, behind @ ..] = rest {
        register = take_two(c, *b0, *b1);
        last = behind;
    }
    take_last(register, last)
}

// The CRC_A of all the bytes. As sent, its low byte goes first.
pub fn crc_a(bytes: &[u8]) -> u16
    ensures { result ≡ crc_a bytes.now }
{
    let mut register: u16 = 0x6363;
    let mut rest = bytes;
    while let [b0, b1, b2, b3, behind @ ..] = rest {
        register = take_four(register, *b0, *b1, *b2, *b3);
        rest = behind;
    }
    take_rest(register, rest)
}

// The CRC_A of the buffer's first n bytes is stored behind them.
pub fn append(buffer: &mut [u8], n: usize)
    requires { n + 2 ≤ length buffer.old }
    ensures { buffer.new ≡ sets buffer.old n (sent (crc_a (take n buffer.old))) }
{
    let c = crc_a(&buffer[..n]);
    buffer[n] = low_byte(c);
    buffer[n + 1] = high_byte(c);
}

// Whether the frame's last two bytes are the CRC_A of those before them.
pub fn is_right(frame: &[u8]) -> bool
    ensures { result ≡ crc_right frame.now }
{
    match frame {
        [before @ .., low, high] => crc_a(before) == low_first(*low, *high),
        _ => false,
    }
}
