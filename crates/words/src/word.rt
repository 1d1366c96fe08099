// One word: its end, and the number or the bytes that it is as an argument.
ghost use Rattle.std.specs.Prelude.{◌≡◌, ◌+◌, ◌*◌, ◌≤◌, ◌<◌, length, take, drop, IfSome, option_and_then};
ghost use Rattle.words.specs.Word.{word_end, digit_of, with_digit, at_most, number_in, hex_pair, bytes_in, behind, reads, ArgFits};

use basics::find;

// An argument: its number, or the count of its bytes, and where the bytes that are gathered end with it.
#[derive(Clone, Copy)]
pub struct Arg {
    pub number: u32,
    pub end: usize,
}

// How a number is written: with `least` to `digits` digits of its base, and it is at most `most`.
#[derive(Clone, Copy)]
pub struct Numeral {
    pub base: u8,
    pub least: usize,
    pub digits: usize,
    pub most: u32,
}

// The end of the word that begins at `start`: the first space, or the end of the text.
#[tactic(auto, using(crate::proofs::Reading::end_found))]
pub fn word_end(text: &[u8], start: usize) -> usize
    requires { start ≤ length text.now }
    ensures { (start ≤ result) × (result ≤ length text.now) × (result ≡ start + word_end (drop start text.now)) }
{
    find(text, start, text.len(), b' ')
}

// The value of a digit of either case. Not `to_digit`: the rule stands here, where a wrong digit is refused.
#[tactic(auto, unfolding(crate::specs::Word::digit_of))]
fn digit(b: u8) -> Option<u8>
    ensures small { IfSome result (λ d. d < 16) }
    ensures value { result ≡ digit_of b }
{
    match b {
        b'0'..=b'9' => Some(b - b'0'),
        b'A'..=b'F' => Some(b - b'A' + 10),
        b'a'..=b'f' => Some(b - b'a' + 10),
        _ => None,
    }
}

// A number with the digit that a byte is behind it. A byte that is no digit counts as 16, which is none of a base of at most 16.
#[tactic(auto, unfolding(crate::specs::Word::with_digit))]
fn with_digit(n: u32, base: u8, b: u8) -> Option<u64>
    ensures { result ≡ with_digit base n b }
{
    let d = digit(b).unwrap_or(16);
    if d < base {
        Some(u64::from(n) * u64::from(base) + u64::from(d))
    } else {
        None
    }
}

// The number that a word is.
#[tactic(auto, using(crate::proofs::Reading::number_off, crate::proofs::Reading::value_turn, crate::proofs::Reading::number_good))]
pub fn number_in(word: &[u8], numeral: Numeral) -> Option<u32>
    ensures most { IfSome result (λ n. n ≤ numeral.most) }
    ensures value { result ≡ number_in numeral.base numeral.least numeral.digits numeral.most word.now }
{
    if word.len() < numeral.least || word.len() > numeral.digits {
        return None;
    }
    let mut n = 0;
    for b in word {
        let m = with_digit(n, numeral.base, *b)?;
        if m > u64::from(numeral.most) {
            return None;
        }
        n = m as u32;
    }
    Some(n)
}

// The byte that two hex digits make.
#[tactic(auto, unfolding(crate::specs::Word::hex_pair))]
fn hex_pair(high: u8, low: u8) -> Option<u8>
    ensures { result ≡ hex_pair high low }
{
    Some(digit(high)? * 16 + digit(low)?)
}

// One byte or more, and at most `most`, as pairs of hex digits, laid at `at`: callers need where all bytes so far end, and so no slice of the rest.
#[tactic(auto, using(crate::proofs::Reading::pair_turn, crate::proofs::Reading::pair_next, crate::proofs::Reading::given_empty, crate::proofs::Reading::given_odd, crate::proofs::Reading::given_long, crate::proofs::Reading::given_good))]
pub fn bytes_in(word: &[u8], bytes: &mut [u8], at: usize, most: u32) -> Option<Arg>
    requires { at + most ≤ length bytes.old }
    ensures arg_fits { ArgFits most (at + most) result }
    ensures bytes_after { reads result bytes.new ≡ behind (take at bytes.old) (bytes_in most word.now) }
{
    let count = word.len() / 2;
    if word.is_empty() || word.len() % 2 == 1 || count > most as usize {
        return None;
    }
    for (i, pair) in word.chunks_exact(2).enumerate() {
        bytes[at + i] = hex_pair(pair[0], pair[1])?;
    }
    Some(Arg {
        number: count as u32,
        end: at + count,
    })
}
