// Writing the line that answers a line.
ghost use Rattle.laying.specs.Parts.{Line};
ghost use Rattle.jobs.specs.Told.{parts_of, tells, AnswerFits};

use crate::read::Sent;
use arrayvec::ArrayVec;
use laying::Part::{Hex, Number, Words};
use laying::lay;

// Room for the longest line: `area` with 1,100 bytes.
pub type Out = ArrayVec<u8, 2206>;

// What a line is answered by: what the screen says, with the watts; an area of so many bytes, which stand in the buffer of the line's bytes; the
// number of a refusal; the commands; why it is no command. The area's count and no slice of it, since the buffer is still lent to be written
// while a command is carried out.
#[derive(Clone, Copy)]
pub enum Answer {
    Live(u32),
    Old(u32),
    Ahead(u32),
    Area(usize),
    Refused(u8),
    Help,
    NoSuchCommand,
    NotSoWritten,
    TooLong,
}

// The line that gives an answer: it is then all that `out` has.
pub fn line_of(out: &mut Out, told: Answer, bytes: &Sent)
    requires { AnswerFits told }
    ensures { Line (parts_of (tells told bytes.now)) out.new.items }
{
    match told {
        Answer::Live(watts) => lay(out, &[Words(b"live "), Number(watts as usize)]),
        Answer::Old(watts) => lay(out, &[Words(b"old "), Number(watts as usize)]),
        Answer::Ahead(watts) => lay(out, &[Words(b"ahead "), Number(watts as usize)]),
        Answer::Area(n) => lay(out, &[Words(b"area "), Hex(&bytes[..n])]),
        Answer::Refused(k) => lay(out, &[Words(b"refused "), Number(usize::from(k))]),
        Answer::Help => lay(
            out,
            &[Words(b"commands: screen SECONDS IMAGE, reading SECONDS WATTS AREA, help")],
        ),
        Answer::NoSuchCommand => lay(out, &[Words(b"error: no such command")]),
        Answer::NotSoWritten => lay(out, &[Words(b"error: not how this command is written")]),
        Answer::TooLong => lay(out, &[Words(b"error: line too long")]),
    }
}
