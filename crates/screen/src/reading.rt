// A reading, and what its age makes of it.
ghost use Rattle.std.specs.Prelude.{◌≡◌};
ghost use Rattle.screen.specs.Reading.{is_reading, verdict_at, verdict_number};

// The most seconds that a live reading is old.
const LIVE_FOR: u32 = 900;

#[derive(Clone, Copy, PartialEq, Eq)]
pub enum Verdict {
    Live,
    Old,
    Ahead,
}

impl From<Verdict> for u8 {
    ghost from_gives = { λ verdict n. n ≡ verdict_number verdict };

    fn from(verdict: Verdict) -> u8 {
        match verdict {
            Verdict::Live => 1,
            Verdict::Old => 2,
            Verdict::Ahead => 3,
        }
    }
}

// Whether a message is a reading: D5 00 08, and eight bytes.
#[tactic(auto, using(std::proofs::lemmas::Grind::common_steps), unfolding(crate::specs::Reading::is_reading))]
pub fn is_reading(message: &[u8]) -> bool
    ensures { result ≡ is_reading message.now }
{
    matches!(message, [0xD5, 0x00, 0x08, _, _, _, _, _, _, _, _])
}

// What a reading of a second is at the present one.
#[tactic(auto, using(std::proofs::lemmas::Grind::common_steps), unfolding(crate::specs::Reading::verdict_at))]
pub fn verdict_at(present: u32, second: u32) -> Verdict
    ensures { result ≡ verdict_at present second }
{
    if present < second {
        return Verdict::Ahead;
    }
    if present - second > LIVE_FOR {
        return Verdict::Old;
    }
    Verdict::Live
}
