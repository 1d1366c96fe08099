// The input of a program, line by line, from any reader, and the run of a program over it. What was read last stands in a chunk, and the line
// that is being gathered in a line buffer. A line that fills the buffer is too long for a command, and what is behind that is dropped.
#![tactic(auto)]

ghost use Rattle.std.specs.Prelude.{◌≡◌, ◌++◌, ◌≤◌, take, [], IfOk};
ghost use Rattle.input.specs.Lines.{Program as Meaning, unended, is_skipped, answer_to, kept_after};
ghost use Rattle.input.specs.Reading.{line_room, kept, Advances, Takes};
ghost use Rattle.input.specs.Running.{LongAlike, Goes, Ends};

use arrayvec::ArrayVec;
use basics::{copy, find};
use std::io::{self, Read, Write};
use std::marker::Model;

// Two more than the longest line of any program has: the workshop's, of 18,597 characters.
pub const ROOM: usize = 18599;

pub type Line = [u8; ROOM];

pub type Chunk = [u8; 4096];

// A line is an array and a length, since an input can be copied, and an ArrayVec can't.
#[derive(Clone, Copy)]
pub struct Input {
    chunk: Chunk,
    // the bytes of the chunk from `at` to `end` are still to be looked at
    at: usize,
    end: usize,
    buffer: Line,
    // so many bytes of the buffer are the line
    len: usize,
}

impl Model for Input {
    ghost use Rattle.std.specs.Prelude.{◌≤◌, take};
    ghost use Rattle.basics.specs.Runs.{slice};
    ghost use Rattle.input.specs.Reading.{line_room, Held};

    ghost Value = { Held };

    ghost view = { λ i. record {
      ahead = slice i.at i.end i.chunk;
      line = take i.len i.buffer;
      places = record { chunk = i.chunk; at = i.at; end = i.end; buffer = i.buffer; len = i.len };
    } };

    ghost inverse = { λ h. let p = h.places in record { chunk = p.chunk; at = p.at; end = p.end; buffer = p.buffer; len = p.len } };

    ghost invariant = { λ i. (i.at ≤ i.end) × (i.end ≤ 4096) × (i.len ≤ line_room) };
}

// What a step of the input came to.
#[derive(Clone, Copy)]
pub enum Step {
    // the line goes on
    Part,
    // its newline has come
    Line,
    // the input has ended, and the line with it
    End,
}

// Puts bytes behind the first `len` of the line, as many as it has room for. Answers how many are there then.
fn append(line: &mut Line, len: usize, bytes: &[u8]) -> usize
    requires { len ≤ line_room }
    ensures bound { result ≤ line_room }
    ensures line { take result line.new ≡ kept (take len line.old ++ bytes.now) }
{
    let count = bytes.len().min(ROOM - len);
    copy(&bytes[..count], &mut line[len..]);
    len + count
}

impl Input {
    #[tactic(auto, unfolding(basics::specs::Runs::slice))]
    pub fn new() -> Self
        ensures { (result.ahead ≡ []) × (result.line ≡ []) }
    {
        Self {
            chunk: [0; 4096],
            at: 0,
            end: 0,
            buffer: [0; ROOM],
            len: 0,
        }
    }

    // What there is of the line.
    pub fn line(&self) -> &[u8]
        ensures { result.now ≡ self.now.line }
    {
        &self.buffer[..self.len]
    }

    // The line was answered: the next one begins.
    pub fn answered(&mut self)
        ensures { (self.new.ahead ≡ self.old.ahead) × (self.new.line ≡ []) }
    {
        self.len = 0;
    }

    // One step: the rest of the chunk up to a newline, or, where nothing is left of it, one read.
    pub fn advance<R: Read>(&mut self, reader: &mut R) -> Step
        ensures step { Advances self.old result self.new }
        ensures takes { Takes (R.remaining reader.old) (R.remaining reader.new) self.old self.new }
    {
        if self.at < self.end {
            return self.gather();
        }
        self.refill(reader)
    }

    // Reads once: nothing comes at the end of the input, or where the read fails. At the end of the input the line counts as whole.
    fn refill<R: Read>(&mut self, reader: &mut R) -> Step
        requires { self.old.ahead ≡ [] }
        ensures step { Advances self.old result self.new }
        ensures takes { Takes (R.remaining reader.old) (R.remaining reader.new) self.old self.new }
    {
        let count = reader.read(&mut self.chunk).unwrap_or(0);
        self.at = 0;
        self.end = count;
        if self.at == self.end {
            return Step::End;
        }
        Step::Part
    }

    // Moves bytes of the chunk to the line, up to a newline, which is dropped, or the chunk's end.
    fn gather(&mut self) -> Step
        requires { self.old.ahead ≡ [] → ⊥ }
        ensures { Advances self.old result self.new }
    {
        let chunk: &[u8] = &self.chunk;
        let stop = find(chunk, self.at, self.end, b'\n');
        let len = append(&mut self.buffer, self.len, &chunk[self.at..stop]);
        self.len = len;
        if stop < self.end {
            self.at = stop + 1;
            return Step::Line;
        }
        self.at = self.end;
        Step::Part
    }
}

// A line without a carriage return at its end.
#[tactic(auto, unfolding(crate::specs::Lines::unended))]
pub fn unended(line: &[u8]) -> &[u8]
    ensures { result.now ≡ unended line.now }
{
    match line {
        [front @ .., b'\r'] => front,
        _ => line,
    }
}

// Whether a line is answered by nothing: an empty line, or a comment.
#[tactic(auto, unfolding(crate::specs::Lines::is_skipped))]
pub fn is_skipped(line: &[u8]) -> bool
    ensures { result ≡ is_skipped line.now }
{
    line.is_empty() || line[0] == b'#'
}

// A program that answers lines, each by at most `OUT` bytes. What it keeps from line to line is its value.
pub trait Program<const OUT: usize> {
    ghost meaning: { Meaning Self };

    // Answers a line that is neither empty nor a comment, and keeps what it leaves.
    fn respond(&mut self, line: &[u8], out: &mut ArrayVec<u8, OUT>)
        ensures keeps { self.new ≡ meaning.next self.old line.now }
        ensures answers { out.new.items ≡ meaning.answer self.old line.now };

    ghost alike: { LongAlike meaning };
}

// Answers a line as it was read.
#[tactic(auto, unfolding(crate::specs::Lines::kept_after, crate::specs::Lines::answer_to))]
fn reply<const OUT: usize, P: Program<OUT>>(
    program: &mut P,
    line: &[u8],
    out: &mut ArrayVec<u8, OUT>,
)
    ensures keeps { program.new ≡ kept_after P.meaning program.old line.now }
    ensures answers { out.new.items ≡ answer_to P.meaning program.old line.now }
{
    let text = unended(line);
    if is_skipped(text) {
        return out.clear();
    }
    program.respond(text, out);
}

// One turn: goes on with the input, and answers a line where it is whole now.
fn turn<const OUT: usize, P: Program<OUT>, R: Read>(
    program: &mut P,
    input: &mut Input,
    reader: &mut R,
    out: &mut ArrayVec<u8, OUT>,
) -> Step
    ensures goes { Goes P.meaning program.old input.old result program.new input.new out.new.items }
    ensures takes { Takes (R.remaining reader.old) (R.remaining reader.new) input.old input.new }
{
    let step = input.advance(reader);
    if let Step::Part = step {
        out.clear();
        return step;
    }
    reply(program, input.line(), out);
    input.answered();
    step
}

// How a run ended: with the input; because its turns were used up.
#[derive(Clone, Copy)]
pub enum Ending {
    Over,
    Worn,
}

// How a run ended, and its last step.
#[derive(Clone, Copy)]
pub struct Ended {
    pub ending: Ending,
    pub last: Step,
}

// Runs a program to the end of the input, and writes what each turn says. A proved loop has to end, and nothing says that the input does: so the
// turns are counted, up to a number that no run uses up.
pub fn run<const OUT: usize, P: Program<OUT>, R: Read, W: Write>(
    program: &mut P,
    reader: &mut R,
    writer: &mut W,
    out: &mut ArrayVec<u8, OUT>,
) -> io::Result<Ended>
    requires { program.old ≡ P.meaning.opening }
    ensures { IfOk result (λ e. Ends P.meaning (R.remaining reader.old) (R.remaining reader.new) e.ending e.last program.new) }
{
    let mut input = Input::new();
    let mut last = Step::Part;
    for turns in 0..u64::MAX {
        last = turn(program, &mut input, reader, out);
        writer.write_all(out.as_slice())?;
        if let Step::End = last {
            return Ok(Ended {
                ending: Ending::Over,
                last,
            });
        }
    }
    Ok(Ended {
        ending: Ending::Worn,
        last,
    })
}
