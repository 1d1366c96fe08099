// The arguments of a line: what kinds there are, and the one loop that reads them.
ghost use Rattle.std.specs.Prelude.{◌≡◌, ◌+◌, ◌≤◌, length, take, IfSome, IsSomeAnd, IfOk};
ghost use Rattle.words.specs.Word.{behind, reads, ArgFits};
ghost use Rattle.words.specs.Args.{either_of, dashed_in, value_of, form_of, forms_of, most_of, room_of, room_for, argued, said_by, GivenFits};
ghost use Rattle.words.specs.Rows.{command_of, command_in, said_in, CommandFits};

use crate::rows::Row;
use crate::word::{Arg, Numeral, bytes_in, number_in, word_end};

// What an argument is: a number; one of two words, the first as 0 and the second as 1; bytes, at most so many; bytes, or `-` for none.
#[derive(Clone, Copy)]
pub enum Kind<'a> {
    Number(Numeral),
    Either(&'a [u8], &'a [u8]),
    Hex(u32),
    Dashed(u32),
}

// Why a line has no arguments: no such command, not how it is written, or a line too long.
#[derive(Clone, Copy, PartialEq, Eq)]
pub enum Refusal {
    Unknown,
    Wrong,
    Long,
}

// The arguments that a line has: their numbers, or the counts of their bytes, and the end of all their bytes in the buffer.
#[derive(Clone, Copy)]
pub struct Given {
    pub count: usize,
    pub numbers: [u32; 3],
    pub end: usize,
}

// One of two words: 0 for the first and 1 for the second.
#[tactic(auto, unfolding(crate::specs::Args::either_of))]
fn either_in(word: &[u8], one: &[u8], other: &[u8]) -> Option<u32>
    ensures most { IfSome result (λ n. n ≤ 1) }
    ensures value { result ≡ either_of one.now other.now word.now }
{
    if word == one {
        Some(0)
    } else if word == other {
        Some(1)
    } else {
        None
    }
}

// Bytes, at most `most`, laid at `at`, or `-` for none.
#[tactic(auto, unfolding(crate::specs::Args::dashed_in))]
fn dashed_in(word: &[u8], bytes: &mut [u8], at: usize, most: u32) -> Option<Arg>
    requires { at + most ≤ length bytes.old }
    ensures arg_fits { ArgFits most (at + most) result }
    ensures bytes_after { reads result bytes.new ≡ behind (take at bytes.old) (dashed_in most word.now) }
{
    if word == b"-".as_slice() {
        return Some(Arg { number: 0, end: at });
    }
    bytes_in(word, bytes, at, most)
}

// The argument that a word is. Its bytes are laid at `at`.
#[tactic(auto, unfolding(crate::specs::Args::value_of))]
fn arg_of(kind: Kind<'_>, word: &[u8], bytes: &mut [u8], at: usize) -> Option<Arg>
    requires { at + room_of (form_of kind) ≤ length bytes.old }
    ensures arg_fits { ArgFits (most_of (form_of kind.entry)) (at + room_of (form_of kind.entry)) result }
    ensures bytes_after { reads result bytes.new ≡ behind (take at bytes.old) (value_of (form_of kind.entry) word.now) }
{
    match kind {
        Kind::Number(numeral) => Some(Arg {
            number: number_in(word, numeral)?,
            end: at,
        }),
        Kind::Either(one, other) => Some(Arg {
            number: either_in(word, one, other)?,
            end: at,
        }),
        Kind::Hex(most) => bytes_in(word, bytes, at, most),
        Kind::Dashed(most) => dashed_in(word, bytes, at, most),
    }
}

// The arguments of a line of a command that needs so many of them.
#[tactic(auto, using(crate::proofs::Arguing::bad_said, crate::proofs::Arguing::many_said, crate::proofs::Arguing::few_said))]
pub fn gather(
    needed: usize,
    kinds: &[Kind<'_>],
    text: &[u8],
    bytes: &mut [u8],
) -> Result<Given, Refusal>
    requires few { length kinds.now ≤ 3 }
    requires room { room_for (forms_of kinds.now) ≤ length bytes.old }
    ensures given_fits { IfOk result (λ g. GivenFits (forms_of kinds.now) g) }
    ensures bytes_after { said_by result bytes.new ≡ argued needed (forms_of kinds.now) text.now }
{
    let mut given = Given {
        count: 0,
        numbers: [0; 3],
        end: 0,
    };
    let mut at = word_end(text, 0);

    // A `while`, since it goes from word to word and counts no index.
    while at < text.len() {
        let kind = kinds.get(given.count).ok_or(Refusal::Wrong)?;
        let start = at + 1;
        let stop = word_end(text, start);
        let arg = arg_of(*kind, &text[start..stop], bytes, given.end).ok_or(Refusal::Wrong)?;
        given.numbers[given.count] = arg.number;
        given.end = arg.end;
        given.count += 1;
        at = stop;
    }
    if given.count < needed {
        return Err(Refusal::Wrong);
    }
    Ok(given)
}

// The arguments of a line of at most `longest` characters whose first word has this row, or none.
#[tactic(auto, using(crate::proofs::Tables::long_said))]
pub fn args_of<V: Copy>(
    row: Option<&Row<'_, V>>,
    longest: usize,
    text: &[u8],
    bytes: &mut [u8],
) -> Result<Given, Refusal>
    requires { IfSome row (λ r. CommandFits (length bytes.old) (command_of r.now)) }
    ensures given_fits { IfOk result (λ g. IsSomeAnd row.entry (λ r. GivenFits (forms_of r.now.kinds.now) g)) }
    ensures bytes_after { said_by result bytes.new ≡ said_in longest (command_in row.entry) text.now }
{
    if text.len() > longest {
        return Err(Refusal::Long);
    }
    let row = row.ok_or(Refusal::Unknown)?;
    gather(row.needed, row.kinds, text, bytes)
}
