// A program's table of commands, and what a line asks for by it.
ghost use Rattle.std.specs.Prelude.{◌≡◌, length, IfOk, option_copied};
ghost use Rattle.std.specs.List.{find};
ghost use Rattle.std.specs.Str.{bytes_eq};
ghost use Rattle.words.specs.Word.{first_of};
ghost use Rattle.words.specs.Args.{said_by};
ghost use Rattle.words.specs.Rows.{rows_of, row_in, verb_by, verb_asked, said_in, given_of, Asks, TableFits};

use crate::args::{Given, Kind, Refusal, args_of};
use crate::word::word_end;

// A command: its word, its verb, how many of its arguments must be there, and what each is.
#[derive(Clone, Copy)]
pub struct Row<'a, V> {
    pub word: &'a [u8],
    pub verb: V,
    pub needed: usize,
    pub kinds: &'a [Kind<'a>],
}

// What a line asks for: a command, and its arguments. The bytes stand in a buffer beside it.
#[derive(Clone, Copy)]
pub struct Asked<V> {
    pub verb: V,
    pub given: Given,
}

// Why a line is refused, and the verb of its first word, where a row has that word.
#[derive(Clone, Copy)]
pub struct Refused<V> {
    pub refusal: Refusal,
    pub verb: Option<V>,
}

// The row of a word.
fn row_of<'a, 'b, V: Copy>(table: &'a [Row<'b, V>], word: &[u8]) -> Option<&'a Row<'b, V>>
    ensures { option_copied result ≡ find (λ r. bytes_eq r.word.now word.now) table.now }
{
    table.iter().find(|row| row.word == word)
}

// What a line of at most `longest` characters asks for.
pub fn asked_of<V: Copy>(
    table: &[Row<'_, V>],
    longest: usize,
    text: &[u8],
    bytes: &mut [u8],
) -> Result<Asked<V>, Refused<V>>
    requires { TableFits (length bytes.old) (rows_of table.now) }
    ensures asks { IfOk result (λ a. Asks (row_in (rows_of table.now) (first_of text.now)) a) }
    ensures verb { verb_asked result ≡ verb_by (row_in (rows_of table.now) (first_of text.now)) }
    ensures said { said_by (given_of result) bytes.new ≡ said_in longest (row_in (rows_of table.now) (first_of text.now)) text.now }
{
    let row = row_of(table, &text[..word_end(text, 0)]);
    let verb = row.map(|row| row.verb);
    match args_of(row, longest, text, bytes) {
        // only the line of a command has arguments
        Ok(given) => Ok(Asked {
            verb: verb.unwrap(),
            given,
        }),
        Err(refusal) => Err(Refused { refusal, verb }),
    }
}
