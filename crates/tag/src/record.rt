// The record that a board keeps between two calls: numbers, and what they mean.
ghost use Rattle.std.specs.Prelude.{◌≡◌};
ghost use Rattle.tag.specs.Record.{wait_of, state_of, meant, tag_of, wait_number, record_of};

use crate::state::{State, Tag, Wait};

// What a board keeps between two calls, in C too, so that it is numbers. Any four may be handed back: those without a meaning count as after
// field loss.
#[repr(C)]
#[derive(Clone, Copy)]
pub struct TagRecord {
    // 0 IDLE, 1 HALT, 2 READY1, 3 READY2, 4 ACTIVE.
    pub state: u8,
    // The state to go back to: 0 IDLE, 1 HALT.
    pub wait: u8,
    // 1 in ACTIVE after a right password, else 0.
    pub authenticated: u8,
    // 1 after a READ or FAST_READ was answered in this field, else 0.
    pub answered: u8,
}

impl From<u8> for Wait {
    ghost from_gives = { λ number wait. wait ≡ wait_of number };

    #[tactic(auto, unfolding(crate::specs::Record::wait_of))]
    fn from(number: u8) -> Wait {
        match number {
            0 => Wait::ToIdle,
            _ => Wait::ToHalt,
        }
    }
}

impl From<Wait> for u8 {
    ghost from_gives = { λ wait number. number ≡ wait_number wait };

    fn from(wait: Wait) -> u8 {
        match wait {
            Wait::ToIdle => 0,
            Wait::ToHalt => 1,
        }
    }
}

#[tactic(auto, unfolding(crate::specs::Record::state_of))]
fn state_of(number: u8, wait: Wait, authenticated: bool) -> State
    ensures { result ≡ state_of number wait authenticated }
{
    match number {
        0 => State::Idle,
        1 => State::Halt,
        2 => State::Ready1(wait),
        3 => State::Ready2(wait),
        _ => State::Active(wait, authenticated),
    }
}

#[tactic(auto, unfolding(crate::specs::Record::meant))]
fn is_meant(rec: TagRecord) -> bool
    ensures { result ≡ meant rec }
{
    rec.state < 5 && rec.wait < 2 && rec.authenticated < 2 && rec.answered < 2
}

// The meaning of a record.
impl From<TagRecord> for Tag {
    ghost from_gives = { λ rec tag. tag ≡ tag_of rec };

    #[tactic(auto, unfolding(crate::specs::Record::tag_of))]
    fn from(rec: TagRecord) -> Tag {
        if is_meant(rec) {
            Tag {
                state: state_of(rec.state, Wait::from(rec.wait), rec.authenticated == 1),
                answered: rec.answered == 1,
            }
        } else {
            Tag::field_off()
        }
    }
}

// The record of a tag.
impl From<Tag> for TagRecord {
    ghost from_gives = { λ tag rec. rec ≡ record_of tag };

    #[tactic(auto, unfolding(crate::specs::Record::record_of, crate::specs::Record::flag_of))]
    fn from(tag: Tag) -> TagRecord {
        let (state, wait, authenticated) = match tag.state {
            State::Idle => (0, Wait::ToIdle, false),
            State::Halt => (1, Wait::ToIdle, false),
            State::Ready1(wait) => (2, wait, false),
            State::Ready2(wait) => (3, wait, false),
            State::Active(wait, authenticated) => (4, wait, authenticated),
        };
        TagRecord {
            state,
            wait: u8::from(wait),
            authenticated: u8::from(authenticated),
            answered: u8::from(tag.answered),
        }
    }
}
