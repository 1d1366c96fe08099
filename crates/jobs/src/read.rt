// Reading a line: the command that its first word names, and its arguments.
ghost use Rattle.std.specs.Prelude.{◌≡◌, IfOk};
ghost use Rattle.words.specs.Args.{said_by};
ghost use Rattle.words.specs.Rows.{given_of, verb_asked};
ghost use Rattle.jobs.specs.Said.{verb_named, verb_said, verb_of, said_of, AskedFits};

use words::args::Kind;
use words::rows::{Asked, Refused, Row};
use words::word::Numeral;

// Room for the bytes of a line's arguments, one behind the other.
pub type Sent = [u8; 1100];

// The longest line that isn't too long.
const LONGEST: usize = 18597;

#[derive(Clone, Copy)]
pub enum Verb {
    Screen,
    Reading,
    Help,
}

// The arguments that the lines have.
const SECONDS: Kind = Kind::Number(Numeral {
    base: 10,
    least: 1,
    digits: 10,
    most: 4294967295,
});

const WATTS: Kind = SECONDS;

const IMAGE: Kind = Kind::Dashed(1100);

const AREA: Kind = IMAGE;

// The commands.
static COMMANDS: [Row<Verb>; 3] = [
    Row {
        word: b"screen",
        verb: Verb::Screen,
        needed: 2,
        kinds: &[SECONDS, IMAGE],
    },
    Row {
        word: b"reading",
        verb: Verb::Reading,
        needed: 3,
        kinds: &[SECONDS, WATTS, AREA],
    },
    Row {
        word: b"help",
        verb: Verb::Help,
        needed: 0,
        kinds: &[],
    },
];

// What a line asks for.
pub fn asked_of(text: &[u8], bytes: &mut Sent) -> Result<Asked<Verb>, Refused<Verb>>
    ensures asked_fits { IfOk result (λ a. AskedFits a) }
    ensures named { verb_asked result ≡ verb_named text.now }
    ensures verb { verb_said result ≡ verb_of text.now }
    ensures said { said_by (given_of result) bytes.new ≡ said_of text.now }
{
    words::rows::asked_of(&COMMANDS, LONGEST, text, bytes)
}
