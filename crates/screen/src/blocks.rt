// The TLV blocks of the user pages, from the first one on.
ghost use Rattle.std.specs.Prelude.{◌≡◌, ◌≤◌, length, IfSome};
ghost use Rattle.screen.specs.Blocks.{counted, long_value, value_of, walk, cut_off, found};

use crate::refusals::Refusal;
use basics::low_first;

const NULL: u8 = 0x00;

const MESSAGE: u8 = 0x03;

const TERMINATOR: u8 = 0xFE;

// The length that is followed by two bytes, which have it.
const LONG: u8 = 0xFF;

// The first n bytes, and those behind them.
#[tactic(auto, using(crate::proofs::Values::cut_at))]
fn counted(bytes: &[u8], n: usize) -> Option<(&[u8], &[u8])>
    ensures parts { cut_off result ≡ counted n bytes.now }
    ensures shorter { IfSome result (λ parts. length parts.1.now ≤ length bytes.now) }
{
    bytes.split_at_checked(n)
}

// The bytes that a length of two bytes counts, and those behind them.
fn long_value(bytes: &[u8]) -> Option<(&[u8], &[u8])>
    ensures parts { cut_off result ≡ long_value bytes.now }
    ensures shorter { IfSome result (λ parts. length parts.1.now ≤ length bytes.now) }
{
    let [high, low, rest @ ..] = bytes else {
        return None;
    };
    counted(rest, usize::from(low_first(*low, *high)))
}

// The bytes that the length in front counts, and those behind them.
fn value_of(bytes: &[u8]) -> Option<(&[u8], &[u8])>
    ensures parts { cut_off result ≡ value_of bytes.now }
    ensures shorter { IfSome result (λ parts. length parts.1.now ≤ length bytes.now) }
{
    match bytes {
        [LONG, rest @ ..] => long_value(rest),
        [n, rest @ ..] => counted(rest, usize::from(*n)),
        [] => None,
    }
}

// The bytes from the first one on that isn't 00h. A loop of its own is a tight one: empty user pages take half the instructions of a walk that
// passes over each by itself.
#[tactic(auto, using(std::proofs::lemmas::Grind::common_steps, crate::proofs::Values::walk_null))]
fn past_nulls(bytes: &[u8]) -> &[u8]
    ensures same { walk result.now ≡ walk bytes.now }
    ensures shorter { length result.now ≤ length bytes.now }
{
    let mut rest = bytes;
    while let [NULL, behind @ ..] = rest {
        rest = behind;
    }
    rest
}

// The first block of type 03h. Each block is looked at once, and none behind it.
#[tactic(auto, using(std::proofs::lemmas::Grind::common_steps, crate::proofs::Values::walking))]
pub fn walk(area: &[u8]) -> Result<&[u8], Refusal>
    ensures { found result ≡ walk area.now }
{
    let mut rest = area;
    while let [kind, behind @ ..] = rest {
        rest = match *kind {
            NULL => past_nulls(behind),
            TERMINATOR => break,
            MESSAGE => return Ok(value_of(behind).ok_or(Refusal::Passes)?.0),
            _ => value_of(behind).ok_or(Refusal::Passes)?.1,
        };
    }
    Err(Refusal::NoMessage)
}
