// Laying the line that answers a line: its parts, which are words, numbers and bytes, one behind the other, and the line's end. Not by `write!`:
// std says what that writes where it succeeds, and not that it does, and a line is always laid. All that put something put it behind what `out`
// has.
#![tactic(auto)]

pub mod slices;

ghost use Rattle.std.specs.Prelude.{◌≡◌, [], ◌∷◌, ◌++◌, ◌+◌, ◌*◌, ◌<◌, ◌≤◌, cond, length, take};
ghost use Rattle.arrayvec.specs.ArrayVec.{array_vec_len};
ghost use Rattle.basics.specs.Hex.{hex_of};
ghost use Rattle.laying.specs.Parts.{word as Parts·word, number as Parts·number, decimal, tail_of, four_of, letters_of, part_laid, parts_laid, room_of, room_for, Laid, Line};

use arrayvec::ArrayVec;
use basics::{high_char, low_char};
use itoa::Buffer;

// A part of a line: fixed words; fixed words where a flag is set, or nothing; a number in decimal; a number as four hex digits; bytes in hex;
// bytes in hex behind a space, or nothing where there are none.
#[derive(Clone, Copy)]
pub enum Part<'a> {
    Words(&'a [u8]),
    Flagged(bool, &'a [u8]),
    Number(usize),
    Four(u16),
    Hex(&'a [u8]),
    Tail(&'a [u8]),
}

// A word of at most seven letters: how many it has, and the letters.
#[derive(Clone, Copy)]
pub struct Letters(pub usize, pub [u8; 7]);

impl Part<'_> {
    // Puts the part.
    fn put<const N: usize>(&self, out: &mut ArrayVec<u8, N>)
        requires { array_vec_len out.old + room_of (part_laid self.now) ≤ N }
        ensures { Laid (part_laid self.now) out.old.items out.new.items }
    {
        match self {
            Part::Words(words) => put(out, words),
            Part::Flagged(flag, words) => put_flagged(out, words, *flag),
            Part::Number(n) => put_number(out, *n),
            Part::Four(n) => put_four(out, *n),
            Part::Hex(bytes) => put_hex(out, bytes),
            Part::Tail(bytes) => put_tail(out, bytes),
        }
    }
}

// Lays the line of these parts: it is then all that `out` has.
pub fn lay<const N: usize>(out: &mut ArrayVec<u8, N>, parts: &[Part<'_>])
    requires { room_for (parts_laid parts.now) ≤ N }
    ensures { Line (parts_laid parts.now) out.new.items }
{
    out.clear();
    for part in parts {
        part.put(out);
    }
    end(out);
}

// A line of fixed words.
pub fn fixed<const N: usize>(out: &mut ArrayVec<u8, N>, words: &[u8])
    requires { length words.now + 1 ≤ N }
    ensures { Line (Parts·word words.now ∷ []) out.new.items }
{
    lay(out, &[Part::Words(words)]);
}

// A line of a word, which has its space behind it, and a number.
pub fn numbered<const N: usize>(out: &mut ArrayVec<u8, N>, word: &[u8], n: usize)
    requires { length word.now + 21 ≤ N }
    ensures { Line (Parts·word word.now ∷ Parts·number n ∷ []) out.new.items }
{
    lay(out, &[Part::Words(word), Part::Number(n)]);
}

// Ends the line.
fn end<const N: usize>(out: &mut ArrayVec<u8, N>)
    requires { array_vec_len out.old < N }
    ensures { out.new.items ≡ out.old.items ++ 10 ∷ [] }
{
    put(out, b"\n");
}

// The first `count` bytes of a text.
pub fn put_front<const N: usize>(out: &mut ArrayVec<u8, N>, text: &[u8], count: usize)
    requires count_in_bounds { count ≤ length text.now }
    requires room { array_vec_len out.old + count ≤ N }
    ensures { out.new.items ≡ out.old.items ++ take count text.now }
{
    let _ = out.try_extend_from_slice(&text[..count]);
}

pub fn put<const N: usize>(out: &mut ArrayVec<u8, N>, text: &[u8])
    requires { array_vec_len out.old + length text.now ≤ N }
    ensures { out.new.items ≡ out.old.items ++ text.now }
{
    put_front(out, text, text.len());
}

pub fn put_letters<const N: usize>(out: &mut ArrayVec<u8, N>, word: Letters)
    requires word_bound { word.0 ≤ 7 }
    requires room { array_vec_len out.old + 7 ≤ N }
    ensures { out.new.items ≡ out.old.items ++ letters_of word }
{
    put_front(out, &word.1, word.0);
}

// A text where a flag is set, or nothing.
pub fn put_flagged<const N: usize>(out: &mut ArrayVec<u8, N>, text: &[u8], flag: bool)
    requires { array_vec_len out.old + length text.now ≤ N }
    ensures { out.new.items ≡ out.old.items ++ cond flag text.now [] }
{
    if flag {
        put(out, text);
    }
}

// A number, in decimal.
#[tactic(auto, using(crate::proofs::Laying::decimal_is))]
pub fn put_number<const N: usize>(out: &mut ArrayVec<u8, N>, n: usize)
    requires { array_vec_len out.old + 20 ≤ N }
    ensures { out.new.items ≡ out.old.items ++ decimal n }
{
    let mut buffer = Buffer::new();
    let digits = buffer.format(n).as_bytes();
    put(out, digits);
}

// A number of sixteen bits as four hex digits, the high byte first.
pub fn put_four<const N: usize>(out: &mut ArrayVec<u8, N>, n: u16)
    requires { array_vec_len out.old + 4 ≤ N }
    ensures { out.new.items ≡ out.old.items ++ four_of n }
{
    put_hex(out, &n.to_be_bytes());
}

// A byte as two hex digits.
fn put_pair<const N: usize>(out: &mut ArrayVec<u8, N>, b: u8)
    requires { array_vec_len out.old + 2 ≤ N }
    ensures { out.new.items ≡ out.old.items ++ hex_of (b ∷ []) }
{
    out.push(high_char(b));
    out.push(low_char(b));
}

// The digits of at most 32 bytes, at the front of their places: the high ones and the low ones apart first, so that the compiler makes sixteen at once.
fn digits_of<const K: usize>(bytes: &[u8; K]) -> [u8; 64]
    requires { K ≤ 32 }
    ensures { take (2 * K) result ≡ hex_of bytes.now }
{
    let mut high = [0; 32];
    let mut low = [0; 32];
    for (i, b) in bytes.iter().enumerate() {
        high[i] = high_char(*b);
        low[i] = low_char(*b);
    }
    let mut digits = [0; 64];
    for k in 0..K {
        digits[2 * k] = high[k];
        digits[2 * k + 1] = low[k];
    }
    digits
}

// Each byte as two hex digits: thirty-two and sixteen at once, where there are so many, in a tenth of the time, and the last ones one by one.
pub fn put_hex<const N: usize>(out: &mut ArrayVec<u8, N>, bytes: &[u8])
    requires { array_vec_len out.old + 2 * length bytes.now ≤ N }
    ensures { out.new.items ≡ out.old.items ++ hex_of bytes.now }
{
    let mut rest = bytes;
    while let Some((many, behind)) = rest.split_first_chunk::<32>() {
        put_front(out, &digits_of(many), 64);
        rest = behind;
    }
    while let Some((some, behind)) = rest.split_first_chunk::<16>() {
        put_front(out, &digits_of(some), 32);
        rest = behind;
    }
    for b in rest {
        put_pair(out, *b);
    }
}

// The same behind a space; nothing where there are none.
pub fn put_tail<const N: usize>(out: &mut ArrayVec<u8, N>, bytes: &[u8])
    requires { array_vec_len out.old + 2 * length bytes.now + 1 ≤ N }
    ensures { out.new.items ≡ out.old.items ++ tail_of bytes.now }
{
    if bytes.is_empty() {
        return;
    }
    put(out, b" ");
    put_hex(out, bytes);
}
