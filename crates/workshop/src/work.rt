// What each line does. Nothing here knows the rules of a call: every answer comes from the call.
ghost use Rattle.std.specs.Prelude.{◌≡◌, List, ℕ, ◌++◌, ◌≤◌, length, take, get_or};
ghost use Rattle.screen.specs.Screen.{seen};
ghost use Rattle.logger.specs.Writer.{written};
ghost use Rattle.jobs.specs.Said.{sent_room, verb_of, said_of, AskedFits};
ghost use Rattle.workshop.specs.Worked.{verdict_told, screen_told, written_told, worked, answered};
ghost use Rattle.workshop.specs.Tells.{Says, Tells};

use jobs::read::{Sent, Verb, asked_of};
use jobs::write::Answer;
use logger::write_reading;
use screen::{Shown, Verdict, screen};
use words::args::Refusal;
use words::rows::Asked;

fn verdict_told(verdict: Verdict, watts: u32) -> Answer
    ensures { Says (verdict_told verdict watts) result }
{
    match verdict {
        Verdict::Live => Answer::Live(watts),
        Verdict::Old => Answer::Old(watts),
        Verdict::Ahead => Answer::Ahead(watts),
    }
}

// What the screen says.
fn screen_told(seen: Result<Shown, screen::Refusal>) -> Answer
    ensures { Says (screen_told seen) result }
{
    match seen {
        Ok(shown) => verdict_told(shown.verdict, shown.watts),
        Err(refusal) => Answer::Refused(u8::from(refusal)),
    }
}

// Writes a reading into an area, which may have bytes behind it.
#[tactic(auto, unfolding(crate::specs::Worked::written_told))]
fn put_reading(area: &mut [u8], second: u32, watts: u32) -> Answer
    requires { length area.old ≤ sent_room }
    ensures { (rest : List ℕ) → Tells (written_told (written second watts area.old)) result (area.new ++ rest) }
{
    match write_reading(area, second, watts) {
        Ok(()) => Answer::Area(area.len()),
        Err(short) => Answer::Refused(u8::from(short)),
    }
}

// Carries out a command.
fn work(bytes: &mut Sent, asked: Asked<Verb>) -> Answer
    requires { AskedFits asked }
    ensures { Tells (worked asked.verb (get_or asked.given.numbers 0 0) (get_or asked.given.numbers 1 0) (take asked.given.end bytes.old)) result bytes.new }
{
    let given = asked.given;
    let numbers = given.numbers;
    match asked.verb {
        Verb::Screen => screen_told(screen(&bytes[..given.end], numbers[0])),
        Verb::Reading => put_reading(&mut bytes[..given.end], numbers[0], numbers[1]),
        Verb::Help => Answer::Help,
    }
}

// Carries out what a line asks for.
pub fn answer_to(line: &[u8], bytes: &mut Sent) -> Answer
    ensures { Tells (answered (verb_of line.now) (said_of line.now)) result bytes.new }
{
    match asked_of(line, bytes) {
        Ok(asked) => work(bytes, asked),
        Err(refused) => match refused.refusal {
            Refusal::Unknown => Answer::NoSuchCommand,
            Refusal::Wrong => Answer::NotSoWritten,
            Refusal::Long => Answer::TooLong,
        },
    }
}
