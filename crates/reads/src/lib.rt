// READ and FAST_READ.
// The image, the number of its pages and the answer buffer stay apart: each promise names the two slices before and after, by these names.
#![tactic(auto)]

ghost use Rattle.std.specs.Prelude.{◌≡◌, ℕ, ◌+◌, ◌%◌, ◌≤◌, ◌<◌, length, Some};
ghost use Rattle.image.specs.declared.layout.Four.{Four};
ghost use Rattle.image.specs.Layout.{Fits};
ghost use Rattle.image.specs.Mirror.{text, mirror_for, through};
ghost use Rattle.tag.specs.Outcome.{answer_room, Did, Room, apply};
ghost use Rattle.tag.specs.State.{authenticated, answering};
ghost use Rattle.reads.specs.Read.{bound, counting, read_answered, read, fast_read, page_by, Lays, Counts, Covers};

use image::layout::Four;
use image::mirror::Mirror;
use tag::outcome::{Step, nak, says};
use tag::state::Tag;

// How many pages an answer has.
trait Pages {
    ghost pages: { Self → ℕ };

    fn pages(self) -> usize
        ensures { result ≡ pages self };
}

// READ's four have a type of their own: each instance of `give` is compiled by itself, and with the number known the compiler unrolls the loops
// over the pages and over their CRC_A.
#[derive(Clone, Copy)]
struct FourPages;

impl Pages for FourPages {
    ghost pages = { λ _. 4 };

    fn pages(self) -> usize {
        4
    }
}

// FAST_READ's number.
impl Pages for usize {
    ghost pages = { λ count. count };

    fn pages(self) -> usize {
        self
    }
}

// The pages of an answer: `count` of them from `first` on, which go round at `end`.
#[derive(Clone, Copy)]
struct Span {
    first: usize,
    end: usize,
    count: usize,
    ghost within: { (first < end) × (end ≤ 231) × (count ≤ 231) },
}

// B: the pages that can be read are those below it.
#[tactic(auto, unfolding(crate::specs::Read::bound))]
fn bound(image: &[u8], n: usize, tag: Tag) -> usize
    requires { Fits n image.now }
    ensures { (result ≡ bound n image.now tag) × (result ≤ n) }
{
    if !image::settings::prot(image, n) || tag.authenticated() {
        return n;
    }
    n.min(usize::from(image::settings::auth0(image, n)))
}

// The page after this one, where pages go round at `end`: by a comparison, since a remainder would cost a division for each page.
fn next_page(page: usize, end: usize) -> usize
    requires { (page < end) × (end ≤ 231) }
    ensures { (result ≡ (page + 1) % end) × (result < end) }
{
    let next = page + 1;
    if next < end { next } else { 0 }
}

// The pages go into the answer, each as `page_of` has it.
fn lay_pages<F: Fn(usize) -> Four>(answer: &mut [u8], span: Span, page_of: F)
    requires room { answer_room ≤ length answer.old }
    requires asks { (page : ℕ) → page < span.end → F.pre page_of page }
    ensures { (show : ℕ → ℕ → ℕ)
        → ((page : ℕ) (v : Four) → page < span.end → F.post page_of page v → v ≡ page_by show page)
        → Lays show span.first span.end span.count answer.old answer.new }
{
    let mut page = span.first;
    for i in 0..span.count {
        image::layout::put_at(answer, 4 * i, page_of(page));
        page = next_page(page, span.end);
    }
}

// The four bytes of a page through a mirror, of whose characters the text has been made.
#[tactic(auto, unfolding(image::specs::Mirror::through, image::specs::Mirror::replaced_page, image::specs::Shown::shown_page))]
fn mirrored_page(image: &[u8], characters: &[u8; 21], n: usize, m: Mirror, page: usize) -> Four
    requires { Fits n image.now × (m.from + m.length ≤ 21) × (page ≤ 231) × (characters.now ≡ text n image.now) }
    ensures { result ≡ page_by (through n image.now (Some m)) page }
{
    let stored = image::shown::shown_page(image, n, page);
    image::mirror::replaced_page(characters, m, page, stored)
}

// The pages go into the answer through a mirror.
fn lay_mirrored(image: &[u8], answer: &mut [u8], n: usize, m: Mirror, span: Span)
    requires { Room n image.now answer.old × (m.from + m.length ≤ 21) }
    ensures { Lays (through n image.now (Some m)) span.first span.end span.count answer.old answer.new }
{
    let characters = image::mirror::text(image, n);
    let mirrored = |page| mirrored_page(image, &characters, n, m, page);
    lay_pages(answer, span, mirrored);
}

// Over pages that are laid as they are stored goes the mirror that this reader sees.
fn lay_mirror(image: &[u8], answer: &mut [u8], n: usize, tag: Tag, span: Span)
    requires { Room n image.now answer.old }
    ensures { Covers n image.now (mirror_for n image.now (authenticated tag)) span.first span.end span.count answer.old answer.new }
{
    if let Some(m) = image::mirror::mirror_for(image, n, tag.authenticated()) {
        lay_mirrored(image, answer, n, m, span);
    }
}

// What a read that is answered leaves of the counter and of the tag.
#[tactic(auto, unfolding(crate::specs::Read::counting, tag::specs::Outcome::apply))]
fn count(image: &mut [u8], n: usize, tag: Tag) -> Tag
    requires { Fits n image.old }
    ensures value { (result ≡ answering tag) × (image.new ≡ apply image.old (counting n image.old tag)) }
    ensures fits { Fits n image.new }
{
    if !tag.answered && image::settings::counter_on(image, n) {
        image::tail::count(image, n);
    }
    tag.answering()
}

// Pages are to be answered: this read is counted, and then they are laid as they are stored.
fn lay_counted(image: &mut [u8], answer: &mut [u8], n: usize, tag: Tag, span: Span) -> Tag
    requires { Room n image.old answer.old }
    ensures counts { Counts n image.old tag span.first span.end span.count result image.new answer.old answer.new }
    ensures fits { Fits n image.new }
{
    let left = count(image, n, tag);
    let stored = |page| image::shown::shown_page(image, n, page);
    lay_pages(answer, span, stored);
    left
}

// The answer of READ and of FAST_READ. Whether the settings choose a mirror is asked here: `lay_mirror`, called from both instances, stays out of
// line, and a board without one pays a test.
fn give<P: Pages>(
    image: &mut [u8],
    answer: &mut [u8],
    n: usize,
    tag: Tag,
    first: usize,
    end: usize,
    pages: P,
) -> Step
    requires { Room n image.old answer.old × (first < end) × (end ≤ n) × (P.pages pages ≤ 231) }
    ensures { Did (read_answered n image.old tag first end (P.pages pages)) result image.old image.new answer.old answer.new }
{
    let count = pages.pages();
    let span = Span { first, end, count };
    let left = lay_counted(image, answer, n, tag, span);
    if image::mirror::is_chosen(image, n) {
        lay_mirror(image, answer, n, tag, span);
    }
    says(answer, 4 * count, left)
}

#[tactic(auto, unfolding(crate::specs::Read::read))]
pub fn read(image: &mut [u8], answer: &mut [u8], n: usize, tag: Tag, a: u8) -> Step
    requires { Room n image.old answer.old }
    ensures { Did (read n image.old tag a) result image.old image.new answer.old answer.new }
{
    let b = bound(image, n, tag);
    let page = usize::from(a);
    if page < b {
        give(image, answer, n, tag, page, b, FourPages)
    } else {
        nak(answer, tag, 0)
    }
}

#[tactic(auto, unfolding(crate::specs::Read::fast_read))]
pub fn fast_read(image: &mut [u8], answer: &mut [u8], n: usize, tag: Tag, s: u8, e: u8) -> Step
    requires { Room n image.old answer.old }
    ensures { Did (fast_read n image.old tag s e) result image.old image.new answer.old answer.new }
{
    let b = bound(image, n, tag);
    let first = usize::from(s);
    let last = usize::from(e);
    if first <= last && last < b {
        give(image, answer, n, tag, first, b, last + 1 - first)
    } else {
        nak(answer, tag, 0)
    }
}
