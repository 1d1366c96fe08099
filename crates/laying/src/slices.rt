// Putting parts into any bytes that are lent, at any place in them, for a caller whose line doesn't stand in an `ArrayVec`: all that put something at
// a place answer the place behind it, and what stands before the place stays.
ghost use Rattle.std.specs.Prelude.{◌≡◌, ◌∷◌, [], ◌+◌, ◌*◌, ◌≤◌, length, take};
ghost use Rattle.laying.specs.Parts.{word as Parts·word, flagged as Parts·flagged, number as Parts·number, four as Parts·four, hex as Parts·hex, tail as Parts·tail, letters_of, Laid, Line};

use crate::Letters;
use basics::{copy, high_char, low_char};
use itoa::Buffer;

// The first `count` bytes of a text.
pub fn put_front(out: &mut [u8], at: usize, text: &[u8], count: usize) -> usize
    requires count_in_bounds { count ≤ length text.now }
    requires room { at + count ≤ length out.old }
    ensures value { result ≡ at + count }
    ensures laid { Laid (Parts·word (take count text.now)) (take at out.old) (take result out.new) }
{
    let end = at + count;
    copy(&text[..count], &mut out[at..end]);
    end
}

pub fn put(out: &mut [u8], at: usize, text: &[u8]) -> usize
    requires { at + length text.now ≤ length out.old }
    ensures value { result ≡ at + length text.now }
    ensures laid { Laid (Parts·word text.now) (take at out.old) (take result out.new) }
{
    put_front(out, at, text, text.len())
}

pub fn put_letters(out: &mut [u8], at: usize, word: Letters) -> usize
    requires word_bound { word.0 ≤ 7 }
    requires room { at + 7 ≤ length out.old }
    ensures upper_bound { result ≤ at + 7 }
    ensures laid { Laid (Parts·word (letters_of word)) (take at out.old) (take result out.new) }
{
    put_front(out, at, &word.1, word.0)
}

// A text where a flag is set, or nothing.
pub fn put_flagged(out: &mut [u8], at: usize, text: &[u8], flag: bool) -> usize
    requires { at + length text.now ≤ length out.old }
    ensures upper_bound { result ≤ at + length text.now }
    ensures laid { Laid (Parts·flagged flag text.now) (take at out.old) (take result out.new) }
{
    if flag { put(out, at, text) } else { at }
}

// Each byte as two hex digits. Both are stored by their place, so that the compiler makes many at once.
pub fn put_hex(out: &mut [u8], at: usize, bytes: &[u8]) -> usize
    requires { at + 2 * length bytes.now ≤ length out.old }
    ensures value { result ≡ at + 2 * length bytes.now }
    ensures laid { Laid (Parts·hex bytes.now) (take at out.old) (take result out.new) }
{
    let mut to = at;
    for b in bytes {
        out[to] = high_char(*b);
        out[to + 1] = low_char(*b);
        to += 2;
    }
    to
}

// The same behind a space; nothing where there are none.
pub fn put_tail(out: &mut [u8], at: usize, bytes: &[u8]) -> usize
    requires { at + 2 * length bytes.now + 1 ≤ length out.old }
    ensures upper_bound { result ≤ at + 2 * length bytes.now + 1 }
    ensures laid { Laid (Parts·tail bytes.now) (take at out.old) (take result out.new) }
{
    if bytes.is_empty() {
        return at;
    }
    let to = put(out, at, b" ");
    put_hex(out, to, bytes)
}

// A number of sixteen bits as four hex digits, the high byte first.
pub fn put_four(out: &mut [u8], at: usize, n: u16) -> usize
    requires { at + 4 ≤ length out.old }
    ensures value { result ≡ at + 4 }
    ensures laid { Laid (Parts·four n) (take at out.old) (take result out.new) }
{
    put_hex(out, at, &n.to_be_bytes())
}

// A number, in decimal.
#[tactic(auto, using(crate::proofs::Laying::decimal_is))]
pub fn put_number(out: &mut [u8], at: usize, n: usize) -> usize
    requires { at + 20 ≤ length out.old }
    ensures upper_bound { result ≤ at + 20 }
    ensures laid { Laid (Parts·number n) (take at out.old) (take result out.new) }
{
    let mut buffer = Buffer::new();
    let digits = buffer.format(n).as_bytes();
    put(out, at, digits)
}

// A line of fixed words, at the front.
pub fn fixed(out: &mut [u8], words: &[u8]) -> usize
    requires { length words.now + 1 ≤ length out.old }
    ensures upper_bound { result ≤ length out.old }
    ensures line { Line (Parts·word words.now ∷ []) (take result out.new) }
{
    let to = put(out, 0, words);
    put(out, to, b"\n")
}

// A line of a word, which has its space behind it, and a number, at the front.
pub fn numbered(out: &mut [u8], word: &[u8], n: usize) -> usize
    requires { length word.now + 21 ≤ length out.old }
    ensures upper_bound { result ≤ length out.old }
    ensures line { Line (Parts·word word.now ∷ Parts·number n ∷ []) (take result out.new) }
{
    let to = put(out, 0, word);
    let end = put_number(out, to, n);
    put(out, end, b"\n")
}
