// The ASCII mirror: what READ and FAST_READ show of the UID and the counter in the user pages.
ghost use Rattle.std.specs.Prelude.{◌≡◌, ◌+◌, ◌≤◌, IfSome, IsTrue};
ghost use Rattle.image.specs.Layout.{Fits};
ghost use Rattle.image.specs.Mirror.{is_chosen, chosen, wanted, text, allowed, mirror_for, replaced, replaced_page};

use crate::layout::{Four, byte, page_at};
use crate::settings::count_readable;
use basics::{high_char, low_char};

// `length` characters of the text, from its character `from` on, stand from byte `start` of the image on. That they are characters of the text,
// `from + length ≤ 21`, is said by contracts and not by the type: the definitions make mirrors too, and each would have to prove it.
#[derive(Clone, Copy, PartialEq, Eq)]
pub struct Mirror {
    pub start: usize,
    pub length: usize,
    pub from: usize,
}

// Whether the settings choose one: most boards have none.
pub fn is_chosen(image: &[u8], n: usize) -> bool
    requires { Fits n image.now }
    ensures { result ≡ is_chosen n image.now }
{
    64 <= byte(image, n - 4, 0)
}

// What the mode chooses, to stand from `start` on: of the text, which is the UID, 78h and the counter.
#[tactic(auto, unfolding(crate::specs::Mirror::chosen))]
fn chosen(mode: u8, start: usize) -> Option<Mirror>
    ensures value { result ≡ chosen mode start }
    ensures within { IfSome result (λ m. (m.start ≡ start) × (m.from + m.length ≤ 21)) }
{
    match mode {
        0 => None,
        1 => Some(Mirror {
            start,
            length: 14,
            from: 0,
        }),
        2 => Some(Mirror {
            start,
            length: 6,
            from: 15,
        }),
        _ => Some(Mirror {
            start,
            length: 21,
            from: 0,
        }),
    }
}

// What the first settings page asks for.
#[tactic(auto, unfolding(crate::specs::Mirror::wanted))]
fn wanted(settings: Four) -> Option<Mirror>
    ensures value { result ≡ wanted settings }
    ensures within { IfSome result (λ m. (m.start ≤ 1023) × (m.from + m.length ≤ 21)) }
{
    let start = 4 * usize::from(settings.b2) + usize::from(settings.b0 / 16 % 4);
    chosen(settings.b0 / 64, start)
}

// Whether a mirror lies in the user pages, and, where it has the counter in it, the counter is readable.
#[tactic(auto, unfolding(crate::specs::Mirror::allowed))]
fn is_allowed(image: &[u8], n: usize, authenticated: bool, m: Mirror) -> bool
    requires { Fits n image.now × (m.start ≤ 1023) × (m.from + m.length ≤ 21) }
    ensures value { result ≡ allowed n image.now authenticated m }
    ensures within { IsTrue result → m.start + m.length ≤ 904 }
{
    16 <= m.start
        && m.start + m.length <= 4 * (n - 5)
        && (m.from + m.length <= 15 || count_readable(image, n, authenticated))
}

// The mirror that a reader sees, who is authenticated or not.
#[tactic(auto, unfolding(crate::specs::Mirror::mirror_for))]
pub fn mirror_for(image: &[u8], n: usize, authenticated: bool) -> Option<Mirror>
    requires { Fits n image.now }
    ensures value { result ≡ mirror_for n image.now authenticated }
    ensures within { IfSome result (λ m. (m.start + m.length ≤ 904) × (m.from + m.length ≤ 21)) }
{
    let m = wanted(page_at(image, n - 4))?;
    is_allowed(image, n, authenticated, m).then_some(m)
}

// All that a mirror can show: the UID, 78h, the counter.
#[tactic(auto, unfolding(crate::specs::Mirror::text, crate::specs::Uid::uid, crate::specs::Layout::page_at))]
pub fn text(image: &[u8], n: usize) -> [u8; 21]
    requires { Fits n image.now }
    ensures { result ≡ text n image.now }
{
    let u = page_at(image, 0);
    let v = page_at(image, 1);
    let c = page_at(image, n);
    [
        high_char(u.b0),
        low_char(u.b0),
        high_char(u.b1),
        low_char(u.b1),
        high_char(u.b2),
        low_char(u.b2),
        high_char(v.b0),
        low_char(v.b0),
        high_char(v.b1),
        low_char(v.b1),
        high_char(v.b2),
        low_char(v.b2),
        high_char(v.b3),
        low_char(v.b3),
        0x78,
        high_char(c.b2),
        low_char(c.b2),
        high_char(c.b1),
        low_char(c.b1),
        high_char(c.b0),
        low_char(c.b0),
    ]
}

// What the mirror shows at byte `at` of the image, which is otherwise shown as b.
#[tactic(auto, unfolding(crate::specs::Mirror::replaced))]
fn replaced(characters: &[u8; 21], m: Mirror, at: usize, b: u8) -> u8
    requires { m.from + m.length ≤ 21 }
    ensures { result ≡ replaced characters.now m at b }
{
    if m.start <= at && at - m.start < m.length {
        characters[m.from + (at - m.start)]
    } else {
        b
    }
}

// The four bytes of a page through the mirror, which are otherwise shown as v.
#[tactic(auto, unfolding(crate::specs::Mirror::replaced_page))]
pub fn replaced_page(characters: &[u8; 21], m: Mirror, page: usize, v: Four) -> Four
    requires { (m.from + m.length ≤ 21) × (page ≤ 231) }
    ensures { result ≡ replaced_page characters.now m page v }
{
    let at = 4 * page;
    Four {
        b0: replaced(characters, m, at, v.b0),
        b1: replaced(characters, m, at + 1, v.b1),
        b2: replaced(characters, m, at + 2, v.b2),
        b3: replaced(characters, m, at + 3, v.b3),
    }
}
