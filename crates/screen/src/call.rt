// The screen call.
ghost use Rattle.std.specs.Prelude.{◌≡◌};
ghost use Rattle.screen.specs.Screen.{reading_seen, seen, answer_of};

use crate::blocks::walk;
use crate::reading::{Verdict, is_reading, verdict_at};
use crate::refusals::Refusal;
use image::layout::{four_at, size_of};

// Where page 04h begins, the first that is walked.
const FIRST_USER_BYTE: usize = 16;

// What the screen is to show of a reading.
#[derive(Clone, Copy, PartialEq, Eq)]
pub struct Shown {
    pub verdict: Verdict,
    pub watts: u32,
    pub second: u32,
}

// The same as a board gets it, in numbers, since the C interface names them: that of a refusal or 0; 1 for a live reading, 2 for an old one and
// 3 for one ahead, or 0; its watts and its second.
#[repr(C)]
#[derive(Clone, Copy)]
pub struct ScreenAnswer {
    pub refused: u8,
    pub verdict: u8,
    pub watts: u32,
    pub second: u32,
}

impl From<Result<Shown, Refusal>> for ScreenAnswer {
    ghost from_gives = { λ seen answer. answer ≡ answer_of seen };

    fn from(seen: Result<Shown, Refusal>) -> ScreenAnswer {
        match seen {
            Ok(shown) => ScreenAnswer {
                refused: 0,
                verdict: u8::from(shown.verdict),
                watts: shown.watts,
                second: shown.second,
            },
            Err(refusal) => ScreenAnswer {
                refused: u8::from(refusal),
                verdict: 0,
                watts: 0,
                second: 0,
            },
        }
    }
}

// What is to be shown of a message.
#[tactic(auto, using(std::proofs::lemmas::Grind::common_steps), unfolding(crate::specs::Reading::is_reading, crate::specs::Screen::reading_seen))]
fn message_seen(message: &[u8], present: u32) -> Result<Shown, Refusal>
    ensures { result ≡ reading_seen message.now present }
{
    if !is_reading(message) {
        return Err(Refusal::NoReading);
    }
    let second = u32::from(four_at(message, 3));
    let watts = u32::from(four_at(message, 7));
    Ok(Shown {
        verdict: verdict_at(present, second),
        watts,
        second,
    })
}

// What the screen says of an image at the present second. The image is only looked at.
#[tactic(auto, using(std::proofs::lemmas::Grind::common_steps, image::proofs::Laws::fits), unfolding(crate::specs::Screen::seen, crate::specs::Screen::user_bytes))]
pub fn screen(image: &[u8], present: u32) -> Result<Shown, Refusal>
    ensures { result ≡ seen image.now present }
{
    let n = size_of(image.len()).ok_or(Refusal::WrongImage)?;
    // The user pages end where the lock page begins.
    let end = 4 * (n - 5);
    let message = walk(&image[FIRST_USER_BYTE..end])?;
    message_seen(message, present)
}
