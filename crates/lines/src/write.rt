// Writing the line that answers a line.
ghost use Rattle.std.specs.Prelude.{◌≡◌, ◌≤◌, length, take};
ghost use Rattle.laying.specs.Parts.{Line};
ghost use Rattle.lines.specs.Told.{word_text, bytes_in, page_in, parts_of, tells, AnswerFits};

use arrayvec::ArrayVec;
use laying::Part::{Flagged, Four, Hex, Number, Tail, Words};
use laying::lay;

// Room for the longest line: `answer 8192` with 1,024 bytes, and some more.
pub type Out = ArrayVec<u8, 2080>;

// An answer buffer, and room for an image.
pub type Kilobyte = [u8; 1024];

// The words in which the tag's state and the bus's phase are told.
#[derive(Clone, Copy)]
pub enum Word {
    Idle,
    Halt,
    Ready1,
    Ready2,
    Active,
    Rest,
    Device,
    High,
    Reading,
    Deaf,
}

impl Word {
    fn text(self) -> &'static [u8]
        ensures value { result.now ≡ word_text self }
        ensures short { length result.now ≤ 7 }
    {
        match self {
            Word::Idle => b"idle",
            Word::Halt => b"halt",
            Word::Ready1 => b"ready1",
            Word::Ready2 => b"ready2",
            Word::Active => b"active",
            Word::Rest => b"rest",
            Word::Device => b"device",
            Word::High => b"high",
            Word::Reading => b"reading",
            Word::Deaf => b"deaf",
        }
    }
}

// What a line is answered by. The bytes of `Bits` and of `Recalled` stand in the answer buffer, those of `Shown` in the image, and the
// answer has their count. The two of `tag` end in whether a read was answered, and the second has the state to go back to, and whether it
// is authenticated; the three of `bus` have the counter, then the high byte, or how many places are gathered. `Page` is a page of an image
// of so many bytes. There are counts and no slices, since the buffers are still lent to be written while a command is carried out.
#[derive(Clone, Copy)]
pub enum Answer {
    Taken(usize),
    Lent(usize),
    Lost,
    Bits(usize),
    Silence,
    Refused(u8),
    Done,
    Acknowledged,
    Declined,
    Byte(u8),
    Shown(usize),
    Help,
    Tag(Word, bool),
    TagBack(Word, Word, bool, bool),
    Bus(Word, u16),
    BusLow(u16, u8),
    BusWriting(u16, u8),
    Page(u8, usize),
    Memory(usize),
    Recalled(usize),
    NoSuchCommand,
    NotSoWritten,
    TooLong,
}

// The bytes that so many bits take.
fn bits_of(answer: &Kilobyte, bits: usize) -> &[u8]
    requires { bits ≤ 8192 }
    ensures { result.now ≡ take (bytes_in bits) answer.now }
{
    &answer[..bits.div_ceil(8)]
}

// Those of the four bytes of a page that an image has.
fn page_of(image: &[u8], page: u8) -> &[u8]
    ensures value { result.now ≡ page_in page image.now }
    ensures short { length result.now ≤ 4 }
{
    let start = 4 * usize::from(page);
    let left = &image[start.min(image.len())..];
    &left[..left.len().min(4)]
}

// The line that gives an answer: it is then all that `out` has.
pub fn line_of(out: &mut Out, told: Answer, answer: &Kilobyte, image: &Kilobyte)
    requires { AnswerFits told }
    ensures { Line (parts_of (tells told answer.now image.now)) out.new.items }
{
    match told {
        Answer::Taken(n) => lay(out, &[Words(b"image "), Number(n)]),
        Answer::Lent(n) => lay(out, &[Words(b"buffer "), Number(n)]),
        Answer::Lost => lay(out, &[Words(b"field")]),
        Answer::Bits(n) => lay(
            out,
            &[Words(b"answer "), Number(n), Tail(bits_of(answer, n))],
        ),
        Answer::Silence => lay(out, &[Words(b"silence")]),
        Answer::Refused(k) => lay(out, &[Words(b"refused "), Number(usize::from(k))]),
        Answer::Done => lay(out, &[Words(b"done")]),
        Answer::Acknowledged => lay(out, &[Words(b"ack")]),
        Answer::Declined => lay(out, &[Words(b"nak")]),
        Answer::Byte(b) => lay(out, &[Words(b"byte "), Hex(&[b])]),
        Answer::Shown(n) => lay(out, &[Words(b"image"), Tail(&image[..n])]),
        Answer::Help => lay(
            out,
            &[Words(
                b"commands: image HEX, buffer N, field, frame BITS HEX, parity BITS HEX, start, stop, send HH, read ack, read nak, event N HH, show, show HH, tag, bus, memory N, recall HHHH N, help",
            )],
        ),
        Answer::Tag(state, answered) => lay(
            out,
            &[
                Words(b"tag "),
                Words(state.text()),
                Flagged(answered, b" answered"),
            ],
        ),
        Answer::TagBack(state, back, authenticated, answered) => lay(
            out,
            &[
                Words(b"tag "),
                Words(state.text()),
                Words(b" "),
                Words(back.text()),
                Flagged(authenticated, b" authenticated"),
                Flagged(answered, b" answered"),
            ],
        ),
        Answer::Bus(phase, counter) => lay(
            out,
            &[
                Words(b"bus "),
                Words(phase.text()),
                Words(b" "),
                Four(counter),
            ],
        ),
        Answer::BusLow(counter, high) => lay(
            out,
            &[Words(b"bus low "), Four(counter), Tail(&[high])],
        ),
        Answer::BusWriting(counter, places) => lay(
            out,
            &[
                Words(b"bus writing "),
                Four(counter),
                Words(b" "),
                Number(usize::from(places)),
            ],
        ),
        Answer::Page(page, size) => lay(
            out,
            &[Words(b"page"), Tail(page_of(&image[..size], page))],
        ),
        Answer::Memory(n) => lay(out, &[Words(b"memory "), Number(n)]),
        Answer::Recalled(n) => lay(out, &[Words(b"memory"), Tail(&answer[..n])]),
        Answer::NoSuchCommand => lay(out, &[Words(b"error: no such command")]),
        Answer::NotSoWritten => lay(out, &[Words(b"error: not how this command is written")]),
        Answer::TooLong => lay(out, &[Words(b"error: line too long")]),
    }
}
