// IDLE, HALT, READY1 and READY2: a tag is woken and selected.
#![tactic(auto)]

mod forty;
mod frame;

ghost use Rattle.std.specs.Prelude.{◌≡◌, List, ℕ, ◌≤◌, length, get_or, ◌+◌, ◌%◌, ◌^◌, ◌&&◌, if◌then◌else◌, eqb, IfSome};
ghost use Rattle.crc_a.specs.CrcA.{crc_right};
ghost use Rattle.tag.specs.Outcome.{answer_room, Did};
ghost use Rattle.selection.specs.Selection.{wakes, in_idle, in_halt, own1, own2, sent, asks, known, anticollision, select, in_ready, in_ready1, in_ready2};

use forty::Forty;
pub use frame::Frame;
use frame::byte_of;
use image::uid::{bcc0, bcc1, uid};
use tag::outcome::{Step, lay, lost, plain, says, silent};
use tag::state::Tag;

// The codes of seven bits that wake a tag, in IDLE and in HALT.
const REQA: u8 = 0x26;

const WUPA: u8 = 0x52;

// The second byte of a frame that selects.
const SELECT: u8 = 0x70;

// Whether a frame is this code in seven bits.
fn is_short(frame: &[u8], bits: usize, code: u8) -> bool
    ensures { result ≡ (eqb bits 7 && eqb (get_or frame.now 0 0) code) }
{
    bits == 7 && byte_of(frame, 0) == code
}

// The answer to REQA and WUPA.
fn wake(answer: &mut [u8], tag: Tag) -> Step
    requires { answer_room ≤ length answer.old }
    ensures { (img : List ℕ) → Did (wakes tag) result img img answer.old answer.new }
{
    plain(answer, tag.moved(tag.state.woken()), 16, 0x0044)
}

// A frame in HALT: of any length.
pub fn halt(answer: &mut [u8], tag: Tag, frame: &[u8], bits: usize) -> Step
    requires { answer_room ≤ length answer.old }
    ensures { (img : List ℕ) → Did (in_halt tag frame.now bits) result img img answer.old answer.new }
{
    if is_short(frame, bits, WUPA) {
        wake(answer, tag)
    } else {
        silent(tag)
    }
}

// A frame in IDLE: REQA wakes there too.
pub fn idle(answer: &mut [u8], tag: Tag, frame: &[u8], bits: usize) -> Step
    requires { answer_room ≤ length answer.old }
    ensures { (img : List ℕ) → Did (in_idle tag frame.now bits) result img img answer.old answer.new }
{
    if is_short(frame, bits, REQA) {
        wake(answer, tag)
    } else {
        halt(answer, tag, frame, bits)
    }
}

// The forty bits that READY1 goes by.
#[tactic(auto, unfolding(crate::specs::Selection::own1))]
fn own1(image: &[u8]) -> Forty
    requires { 8 ≤ length image.now }
    ensures { result.number ≡ own1 image.now }
{
    Forty::from([
        0x88,
        uid(image, 0),
        uid(image, 1),
        uid(image, 2),
        bcc0(image),
    ])
}

// The forty bits that READY2 goes by.
#[tactic(auto, unfolding(crate::specs::Selection::own2))]
fn own2(image: &[u8]) -> Forty
    requires { 8 ≤ length image.now }
    ensures { result.number ≡ own2 image.now }
{
    Forty::from([
        uid(image, 3),
        uid(image, 4),
        uid(image, 5),
        uid(image, 6),
        bcc1(image),
    ])
}

// The forty bits behind a frame's first two bytes; most frames have them all.
#[tactic(auto, unfolding(crate::specs::Selection::sent))]
fn sent(frame: Frame) -> Forty
    ensures { result.number ≡ sent frame.entry.bytes.now }
{
    match frame.bytes {
        [_, _, a, b, c, d, e, ..] => Forty::from([*a, *b, *c, *d, *e]),
        _ => Forty::from([
            frame.byte(2),
            frame.byte(3),
            frame.byte(4),
            frame.byte(5),
            frame.byte(6),
        ]),
    }
}

// How many bits a second byte that asks for anticollision says are known.
#[tactic(auto, unfolding(crate::specs::Selection::asks, crate::specs::Selection::known))]
fn known(x: u8) -> Option<usize>
    ensures value { result ≡ (if asks x then Some (known x) else None) }
    ensures few { IfSome result (λ n. n ≤ 39) }
{
    match x {
        0x20..=0x67 if x % 16 <= 7 => Some(usize::from(8 * (x / 16 - 2) + x % 16)),
        _ => None,
    }
}

// Whether a frame's last n bits, behind sixteen others, are the first n of these.
fn matches(frame: Frame, n: usize, own: Forty) -> bool
    requires { n ≤ 39 }
    ensures { result ≡ (eqb frame.entry.bits (16 + n) && eqb (sent frame.entry.bytes.now) (own.number % 2 ^ n)) }
{
    frame.bits == 16 + n && sent(frame) == own.first(n)
}

fn anticollision(answer: &mut [u8], tag: Tag, frame: Frame, n: usize, own: Forty) -> Step
    requires { (answer_room ≤ length answer.old) × (n ≡ known (get_or frame.bytes.now 1 0)) × (n ≤ 39) }
    ensures { (img : List ℕ) → Did (anticollision tag frame.entry.bytes.now frame.entry.bits own.number) result img img answer.old answer.new }
{
    if matches(frame, n, own) {
        plain(answer, tag, 40 - n, own.others(n))
    } else {
        lost(tag)
    }
}

// Whether a frame is nine bytes, the five of these among them, with a right CRC_A.
fn selects(frame: Frame, own: Forty) -> bool
    ensures { result ≡ (eqb frame.entry.bits 72 && (eqb (sent frame.entry.bytes.now) own.number && crc_right frame.entry.bytes.now)) }
{
    // All nine bytes, as a part whose length is written here: the compiler then unrolls the CRC_A.
    frame.bits == 72 && sent(frame) == own && crc_a::is_right(&frame.bytes[0..9])
}

fn select(answer: &mut [u8], tag: Tag, frame: Frame, own: Forty, sak: u8) -> Step
    requires { answer_room ≤ length answer.old }
    ensures { (img : List ℕ) → Did (select tag frame.entry.bytes.now frame.entry.bits own.number sak) result img img answer.old answer.new }
{
    if selects(frame, own) {
        lay(answer, &[sak]);
        says(answer, 1, tag.moved(tag.state.selected()))
    } else {
        lost(tag)
    }
}

// Whether a frame came with good parity and begins with this code.
fn is_coded(frame: Frame, code: u8) -> bool
    ensures { result ≡ (frame.entry.parity && eqb (get_or frame.entry.bytes.now 0 0) code) }
{
    frame.parity && frame.byte(0) == code
}

fn ready(answer: &mut [u8], tag: Tag, frame: Frame, code: u8, own: Forty, sak: u8) -> Step
    requires { answer_room ≤ length answer.old }
    ensures { (img : List ℕ) → Did (in_ready tag frame.entry.bytes.now frame.entry.bits frame.entry.parity code own.number sak) result img img answer.old answer.new }
{
    if !is_coded(frame, code) {
        return lost(tag);
    }
    let second = frame.byte(1);
    if second == SELECT {
        return select(answer, tag, frame, own, sak);
    }
    match known(second) {
        Some(n) => anticollision(answer, tag, frame, n, own),
        None => lost(tag),
    }
}

// A frame in READY1.
pub fn ready1(image: &[u8], answer: &mut [u8], tag: Tag, frame: Frame) -> Step
    requires { (8 ≤ length image.now) × (answer_room ≤ length answer.old) }
    ensures { (img : List ℕ) → Did (in_ready1 image.now tag frame.entry.bytes.now frame.entry.bits frame.entry.parity) result img img answer.old answer.new }
{
    ready(answer, tag, frame, 0x93, own1(image), 0x04)
}

// A frame in READY2.
pub fn ready2(image: &[u8], answer: &mut [u8], tag: Tag, frame: Frame) -> Step
    requires { (8 ≤ length image.now) × (answer_room ≤ length answer.old) }
    ensures { (img : List ℕ) → Did (in_ready2 image.now tag frame.entry.bytes.now frame.entry.bits frame.entry.parity) result img img answer.old answer.new }
{
    ready(answer, tag, frame, 0x95, own2(image), 0x00)
}
