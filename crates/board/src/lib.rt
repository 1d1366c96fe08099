// The tag's calls under C names, for a controller's firmware: include/corridor_tag.h declares them. Each is the call below it, with its
// contract, but where that gives a Result or an Option, which C has not: `corridor_screen`, `corridor_write_reading` and `corridor_pages` make
// numbers of it, of which their contracts speak. `corridor_bus_event` has a crate of its own, two_wire_c.
#![tactic(auto)]

ghost use Rattle.std.specs.Prelude.{◌≡◌, length};
ghost use Rattle.image.specs.Layout.{size_of};
ghost use Rattle.tag.specs.State.{field_off};
ghost use Rattle.tag.specs.Outcome.{answer_room};
ghost use Rattle.tag.specs.Record.{record_of, field_loss};
ghost use Rattle.radio.specs.Call.{called, Met};
ghost use Rattle.two_wire.specs.Record.{at_rest};
ghost use Rattle.screen.specs.Screen.{seen, answer_of};
ghost use Rattle.logger.specs.Writer.{written, Wrote};
ghost use Rattle.board.specs.Board.{pages_of};

use image::layout::size_of;
use radio::Answer;
use screen::ScreenAnswer;
use tag::outcome::ANSWER_ROOM;
use tag::record::TagRecord;
use two_wire::BusRecord;

// The record to begin with.
#[unsafe(no_mangle)]
pub extern "C" fn corridor_field_off() -> TagRecord
    ensures { result ≡ record_of field_off }
{
    radio::field_off()
}

// The field is lost.
#[unsafe(no_mangle)]
pub extern "C" fn corridor_field_loss(rec: TagRecord) -> TagRecord
    ensures { result ≡ field_loss rec }
{
    radio::field_loss(rec)
}

// A frame was heard.
#[unsafe(no_mangle)]
pub extern "C" fn corridor_frame(
    image: &mut [u8],
    answer: &mut [u8],
    rec: TagRecord,
    frame: &[u8],
    bits: usize,
    parity: bool,
) -> Answer
    ensures { Met (called image.old (length answer.old) rec frame.now bits parity) result image.old image.new answer.old answer.new }
{
    radio::frame(image, answer, rec, frame, bits, parity)
}

// The bus record to begin with.
#[unsafe(no_mangle)]
pub extern "C" fn corridor_bus_at_rest() -> BusRecord
    ensures { result ≡ at_rest }
{
    two_wire::bus_at_rest()
}

// What the screen is to show of an image at the present second.
#[unsafe(no_mangle)]
pub extern "C" fn corridor_screen(image: &[u8], present: u32) -> ScreenAnswer
    ensures { result ≡ answer_of (seen image.now present) }
{
    ScreenAnswer::from(screen::screen(image, present))
}

// A reading is written into a user area. It answers 0, or the number of the refusal: C has no Result.
#[unsafe(no_mangle)]
pub extern "C" fn corridor_write_reading(area: &mut [u8], second: u32, watts: u32) -> u8
    ensures { Wrote (written second watts area.old) result area.new }
{
    match logger::write_reading(area, second, watts) {
        Ok(()) => 0,
        Err(refusal) => u8::from(refusal),
    }
}

// How many pages an image of so many bytes has; 0 where it is none, since C has no Option.
#[unsafe(no_mangle)]
pub extern "C" fn corridor_pages(bytes: usize) -> usize
    ensures { result ≡ pages_of (size_of bytes) }
{
    size_of(bytes).unwrap_or(0)
}

// The smallest answer buffer that the frame call takes.
#[unsafe(no_mangle)]
pub extern "C" fn corridor_answer_room() -> usize
    ensures { result ≡ answer_room }
{
    ANSWER_ROOM
}
