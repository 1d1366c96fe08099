// Reading a line: the command that its first word names, and its arguments.
ghost use Rattle.std.specs.Prelude.{◌≡◌, IfOk};
ghost use Rattle.words.specs.Args.{said_by};
ghost use Rattle.words.specs.Rows.{given_of, verb_asked};
ghost use Rattle.lines.specs.Said.{verb_named, verb_said, verb_of, said_of, AskedFits};

use words::args::Kind;
use words::rows::{Asked, Refused, Row};
use words::word::Numeral;

// Room for the bytes of an image or of a frame, from its start.
pub type Sent = [u8; 8192];

// The longest line that is a command: `parity 65535` with 8,192 bytes.
const LONGEST: usize = 16397;

#[derive(Clone, Copy)]
pub enum Verb {
    Image,
    Buffer,
    Field,
    Frame,
    Parity,
    Start,
    Stop,
    Send,
    Read,
    Event,
    Show,
    Help,
    Tag,
    Bus,
    Memory,
    Recall,
}

// The arguments that the lines have.
const NUMBER: Kind = Kind::Number(Numeral {
    base: 10,
    least: 1,
    digits: 5,
    most: 65535,
});

const KILO: Kind = Kind::Number(Numeral {
    base: 10,
    least: 1,
    digits: 5,
    most: 1024,
});

const MEMORY_ROOM: Kind = Kind::Number(Numeral {
    base: 10,
    least: 1,
    digits: 5,
    most: 16384,
});

const ADDRESS: Kind = Kind::Number(Numeral {
    base: 16,
    least: 4,
    digits: 4,
    most: 65535,
});

const BYTE: Kind = Kind::Number(Numeral {
    base: 16,
    least: 2,
    digits: 2,
    most: 255,
});

const ACK_NAK: Kind = Kind::Either(b"ack", b"nak");

const IMAGE_HEX: Kind = Kind::Hex(1024);

const PAGE_HEX: Kind = Kind::Hex(1);

const FRAME_HEX: Kind = Kind::Hex(8192);

// The commands.
static COMMANDS: [Row<Verb>; 16] = [
    Row {
        word: b"image",
        verb: Verb::Image,
        needed: 0,
        kinds: &[IMAGE_HEX],
    },
    Row {
        word: b"buffer",
        verb: Verb::Buffer,
        needed: 1,
        kinds: &[KILO],
    },
    Row {
        word: b"field",
        verb: Verb::Field,
        needed: 0,
        kinds: &[],
    },
    Row {
        word: b"frame",
        verb: Verb::Frame,
        needed: 1,
        kinds: &[NUMBER, FRAME_HEX],
    },
    Row {
        word: b"parity",
        verb: Verb::Parity,
        needed: 1,
        kinds: &[NUMBER, FRAME_HEX],
    },
    Row {
        word: b"start",
        verb: Verb::Start,
        needed: 0,
        kinds: &[],
    },
    Row {
        word: b"stop",
        verb: Verb::Stop,
        needed: 0,
        kinds: &[],
    },
    Row {
        word: b"send",
        verb: Verb::Send,
        needed: 1,
        kinds: &[BYTE],
    },
    Row {
        word: b"read",
        verb: Verb::Read,
        needed: 1,
        kinds: &[ACK_NAK],
    },
    Row {
        word: b"event",
        verb: Verb::Event,
        needed: 2,
        kinds: &[NUMBER, BYTE],
    },
    Row {
        word: b"show",
        verb: Verb::Show,
        needed: 0,
        kinds: &[PAGE_HEX],
    },
    Row {
        word: b"help",
        verb: Verb::Help,
        needed: 0,
        kinds: &[],
    },
    Row {
        word: b"tag",
        verb: Verb::Tag,
        needed: 0,
        kinds: &[],
    },
    Row {
        word: b"bus",
        verb: Verb::Bus,
        needed: 0,
        kinds: &[],
    },
    Row {
        word: b"memory",
        verb: Verb::Memory,
        needed: 1,
        kinds: &[MEMORY_ROOM],
    },
    Row {
        word: b"recall",
        verb: Verb::Recall,
        needed: 2,
        kinds: &[ADDRESS, KILO],
    },
];

// What a line asks for.
pub fn asked_of(text: &[u8], bytes: &mut Sent) -> Result<Asked<Verb>, Refused<Verb>>
    ensures asked_fits { IfOk result (λ a. AskedFits a) }
    ensures named { verb_asked result ≡ verb_named text.now }
    ensures verb { verb_said result ≡ verb_of text.now }
    ensures said { said_by (given_of result) bytes.new ≡ said_of text.now }
{
    words::rows::asked_of(&COMMANDS, LONGEST, text, bytes)
}
