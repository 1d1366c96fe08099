// What WRITE, GET_VERSION, READ_CNT, PWD_AUTH and HLTA do.
// The image, the number of its pages and the answer buffer stay apart: each promise names the two slices before and after, by these names.
#![tactic(auto)]

ghost use Rattle.std.specs.Prelude.{◌≡◌, false, List, ℕ, ◌+◌, ◌≤◌, ◌<◌, length, set};
ghost use Rattle.image.specs.Layout.{Fits};
ghost use Rattle.image.specs.Write.{locked};
ghost use Rattle.tag.specs.Outcome.{apply, answer_room, Did, Room};
ghost use Rattle.commands.specs.Commands.{under_password, refuses, write, size_code, version, read_count, limit_reached, same, wrong_counted, accepted, rejected, pwd_auth, hlta};

use image::layout::{Four, Region};
use tag::outcome::{Step, ack, lay, nak, says, silent};
use tag::state::Tag;

// Whether a page is under password.
#[tactic(auto, unfolding(crate::specs::Commands::under_password))]
fn under_password(image: &[u8], n: usize, tag: Tag, page: usize) -> bool
    requires { Fits n image.now }
    ensures { result ≡ under_password n image.now tag page }
{
    usize::from(image::settings::auth0(image, n)) <= page && !tag.authenticated()
}

fn is_locked(image: &[u8], n: usize, page: usize) -> bool
    requires { Fits n image.now }
    ensures { result ≡ locked n image.now page }
{
    image::write::locked_by(image, n, page).is_some()
}

// Whether a WRITE to a page is refused.
#[tactic(auto, unfolding(crate::specs::Commands::refuses))]
fn refuses(image: &[u8], n: usize, tag: Tag, page: usize) -> bool
    requires { Fits n image.now }
    ensures { result ≡ refuses n image.now tag page }
{
    if under_password(image, n, tag, page) {
        return true;
    }
    match image::layout::region_of(n, page) {
        Region::Uid => true,
        Region::StaticLocks => false,
        // One call for both: the compiler then puts it in line.
        Region::Capability | Region::User => is_locked(image, n, page),
        Region::DynamicLocks => false,
        Region::Settings => image::settings::settings_locked(image, n),
        Region::Password => false,
        Region::Outside => true,
    }
}

#[tactic(auto, using(crate::proofs::Laws::not_refused))]
pub fn write(image: &mut [u8], answer: &mut [u8], n: usize, tag: Tag, a: u8, d: Four) -> Step
    requires { Room n image.old answer.old }
    ensures { Did (write n image.old tag a d) result image.old image.new answer.old answer.new }
{
    let page = usize::from(a);
    if refuses(image, n, tag, page) {
        return nak(answer, tag, 0);
    }
    image::write::write(image, n, page, d);
    ack(answer, tag)
}

#[tactic(auto, unfolding(crate::specs::Commands::size_code))]
fn size_code(n: usize) -> u8
    ensures { result ≡ size_code n }
{
    match n {
        45 => 0x0F,
        135 => 0x11,
        _ => 0x13,
    }
}

fn set_size_code(answer: &mut [u8], n: usize)
    requires { 8 ≤ length answer.old }
    ensures { answer.new ≡ set answer.old 6 (size_code n) }
{
    answer[6] = size_code(n);
}

// Document 01 names the form: a fixed byte string, the size byte set after.
pub fn version(answer: &mut [u8], n: usize, tag: Tag) -> Step
    requires { answer_room ≤ length answer.old }
    ensures { (img : List ℕ) → Did (version n tag) result img img answer.old answer.new }
{
    lay(answer, b"\x00\x1D\x04\x01\x01\x00\x00\x03");
    set_size_code(answer, n);
    says(answer, 8, tag)
}

pub fn read_count(image: &[u8], answer: &mut [u8], n: usize, tag: Tag, x: u8) -> Step
    requires { Room n image.now answer.old }
    ensures { Did (read_count n image.now tag x) result image.now image.now answer.old answer.new }
{
    let shown = x == 0x02 && image::settings::count_readable(image, n, tag.authenticated());
    if !shown {
        return nak(answer, tag, 0);
    }
    let tail = image::layout::page_at(image, n);
    let counter = [tail.b0, tail.b1, tail.b2];
    lay(answer, &counter);
    says(answer, 3, tag)
}

#[tactic(auto, unfolding(crate::specs::Commands::limit_reached))]
fn limit_reached(image: &[u8], n: usize) -> bool
    requires { Fits n image.now }
    ensures { result ≡ limit_reached n image.now }
{
    let limit = image::settings::authlim(image, n);
    limit != 0 && limit <= image::tail::failed(image, n)
}

// A right password.
fn accepted(image: &mut [u8], answer: &mut [u8], n: usize, tag: Tag) -> Step
    requires { Room n image.old answer.old }
    ensures { Did (accepted n image.old tag) result image.old image.new answer.old answer.new }
{
    let pack = image::layout::page_at(image, n - 1);
    let first = [pack.b0, pack.b1];
    lay(answer, &first);
    image::tail::set_failed(image, n, 0);
    says(answer, 2, tag.moved(tag.state.granted()))
}

// A wrong password counts where there is a limit.
#[tactic(auto, unfolding(crate::specs::Commands::wrong_counted, crate::specs::Commands::failing, crate::specs::Commands::limit_reached, tag::specs::Outcome::apply))]
fn count_wrong(image: &mut [u8], n: usize)
    requires { Fits n image.old × (limit_reached n image.old ≡ false) }
    ensures { image.new ≡ apply image.old (wrong_counted n image.old) }
{
    if image::settings::authlim(image, n) != 0 {
        let failed = image::tail::failed(image, n);
        image::tail::set_failed(image, n, failed + 1);
    }
}

fn rejected(image: &mut [u8], answer: &mut [u8], n: usize, tag: Tag) -> Step
    requires { Room n image.old answer.old × (limit_reached n image.old ≡ false) }
    ensures { Did (rejected n image.old tag) result image.old image.new answer.old answer.new }
{
    count_wrong(image, n);
    nak(answer, tag, 0)
}

#[tactic(auto, unfolding(crate::specs::Commands::pwd_auth, crate::specs::Commands::same))]
pub fn pwd_auth(image: &mut [u8], answer: &mut [u8], n: usize, tag: Tag, p: Four) -> Step
    requires { Room n image.old answer.old }
    ensures { Did (pwd_auth n image.old tag p) result image.old image.new answer.old answer.new }
{
    if limit_reached(image, n) {
        return nak(answer, tag, 0);
    }
    let pwd = image::layout::page_at(image, n - 2);
    if p == pwd {
        accepted(image, answer, n, tag)
    } else {
        rejected(image, answer, n, tag)
    }
}

pub fn hlta(answer: &mut [u8], tag: Tag, x: u8) -> Step
    requires { answer_room ≤ length answer.old }
    ensures { (img : List ℕ) → Did (hlta tag x) result img img answer.old answer.new }
{
    let halts = x == 0x00;
    if !halts {
        return nak(answer, tag, 0);
    }
    silent(tag.moved(tag.state.halted()))
}
