// A frame in ACTIVE: which command it is, and what it does.
// The image, the number of its pages and the answer buffer stay apart: each promise names the two slices before and after, by these names.
#![tactic(auto)]

ghost use Rattle.std.specs.Prelude.{◌≡◌, ◌≤◌, length};
ghost use Rattle.tag.specs.Outcome.{Did, Room};
ghost use Rattle.active.specs.Frame.{length_of, named, command_of, done, in_active};

use image::layout::{Four, four_at};
use tag::outcome::{Step, lost, nak};
use tag::state::Tag;

// What a frame asks, with its arguments.
#[derive(Clone, Copy)]
pub enum Command {
    Read(u8),
    FastRead(u8, u8),
    Write(u8, Four),
    Version,
    Count(u8),
    Auth(Four),
    Hlta(u8),
}

// The bytes that a frame of this code has, with its CRC_A. Document 01 names the match on the command byte, here and in `named`.
fn length_of(code: u8) -> usize
    ensures { result ≡ length_of code }
{
    match code {
        0x30 => 4,
        0x3A => 5,
        0xA2 => 8,
        0x60 => 3,
        0x39 => 4,
        0x1B => 7,
        0x50 => 4,
        _ => 0,
    }
}

// The command of this code, with its arguments.
fn named(frame: &[u8], code: u8) -> Option<Command>
    requires { length frame.now ≡ length_of code }
    ensures { result ≡ named frame.now code }
{
    match code {
        0x30 => Some(Command::Read(frame[1])),
        0x3A => Some(Command::FastRead(frame[1], frame[2])),
        0xA2 => Some(Command::Write(frame[1], four_at(frame, 2))),
        0x60 => Some(Command::Version),
        0x39 => Some(Command::Count(frame[1])),
        0x1B => Some(Command::Auth(four_at(frame, 1))),
        0x50 => Some(Command::Hlta(frame[1])),
        _ => None,
    }
}

// None where the code is unknown or the length is another.
#[tactic(auto, unfolding(crate::specs::Frame::command_of))]
pub fn decode(frame: &[u8]) -> Option<Command>
    requires { 3 ≤ length frame.now }
    ensures { result ≡ command_of frame.now }
{
    let code = frame[0];
    if frame.len() != length_of(code) {
        return None;
    }
    named(frame, code)
}

fn done(image: &mut [u8], answer: &mut [u8], n: usize, tag: Tag, command: Command) -> Step
    requires { Room n image.old answer.old }
    ensures { Did (done n image.old tag command) result image.old image.new answer.old answer.new }
{
    match command {
        Command::Read(a) => reads::read(image, answer, n, tag, a),
        Command::FastRead(s, e) => reads::fast_read(image, answer, n, tag, s, e),
        Command::Write(a, d) => commands::write(image, answer, n, tag, a, d),
        Command::Version => commands::version(answer, n, tag),
        Command::Count(x) => commands::read_count(image, answer, n, tag, x),
        Command::Auth(p) => commands::pwd_auth(image, answer, n, tag, p),
        Command::Hlta(x) => commands::hlta(answer, tag, x),
    }
}

// A frame in ACTIVE. Its bytes, bits and parity come apart: this function alone takes them here, and the crate that has `Frame` stands beside this one.
#[tactic(auto, unfolding(crate::specs::Frame::in_active))]
pub fn active(
    image: &mut [u8],
    answer: &mut [u8],
    n: usize,
    tag: Tag,
    frame: &[u8],
    bits: usize,
    parity: bool,
) -> Step
    requires { Room n image.old answer.old }
    ensures { Did (in_active n image.old tag frame.now bits parity) result image.old image.new answer.old answer.new }
{
    let whole = bits % 8 == 0 && 3 <= frame.len();
    if !whole {
        return lost(tag);
    }
    let sound = parity && crc_a::is_right(frame);
    if !sound {
        return nak(answer, tag, 1);
    }
    match decode(frame) {
        Some(command) => done(image, answer, n, tag, command),
        None => nak(answer, tag, 0),
    }
}
