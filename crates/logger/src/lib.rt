// The writer for the logger: a reading of the corridor screen, into a user area that is lent.
#![tactic(auto)]

ghost use Rattle.std.specs.Prelude.{◌≡◌};
ghost use Rattle.logger.specs.Writer.{block_of, written, Wrote, answer_number};

use image::layout::Four;

// The refusal: an area with no room for a reading.
#[derive(Clone, Copy, PartialEq, Eq)]
pub struct ShortArea;

impl From<ShortArea> for u8 {
    ghost from_gives = { λ _ n. n ≡ 23 };

    fn from(_refusal: ShortArea) -> u8 {
        23
    }
}

// A reading as it stands in an area: its message block, and the end of the blocks.
#[tactic(auto, unfolding(crate::specs::Writer::block_of, crate::specs::Writer::reading_of, image::specs::Layout::bytes_of))]
fn block_of(second: u32, watts: u32) -> [u8; 14]
    ensures { result ≡ block_of second watts }
{
    let s = Four::from(second);
    let w = Four::from(watts);
    [
        // A message of eleven bytes: those by which a reading is known, the second, the watts.
        0x03, 0x0B, 0xD5, 0x00, 0x08, s.b0, s.b1, s.b2, s.b3, w.b0, w.b1, w.b2, w.b3,
        // The end of the blocks.
        0xFE,
    ]
}

// Writes a reading at the start of an area, whose other bytes stay. Where it is refused nothing is written.
#[tactic(auto, using(crate::proofs::Writing::block_length), unfolding(crate::specs::Writer::written))]
pub fn write_reading(area: &mut [u8], second: u32, watts: u32) -> Result<(), ShortArea>
    ensures { Wrote (written second watts area.old) (answer_number result) area.new }
{
    let front = area.first_chunk_mut().ok_or(ShortArea)?;
    *front = block_of(second, watts);
    Ok(())
}
