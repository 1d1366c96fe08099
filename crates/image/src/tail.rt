// The tail: the counter and the failed-password count.
ghost use Rattle.std.specs.Prelude.{◌≡◌, ◌≤◌};
ghost use Rattle.image.specs.Layout.{Fits, page_at, store};
ghost use Rattle.image.specs.Tail.{failed, next_count, counted, with_failed};

use crate::layout::{Four, byte, page_at, store};

// The failed-password count.
pub fn failed(image: &[u8], n: usize) -> u8
    requires { Fits n image.now }
    ensures { result ≡ failed n image.now }
{
    byte(image, n, 3)
}

#[tactic(auto, unfolding(crate::specs::Tail::with_failed))]
pub fn set_failed(image: &mut [u8], n: usize, count: u8)
    requires { Fits n image.old }
    ensures { image.new ≡ store image.old n (with_failed count (page_at image.old n)) }
{
    let tail = page_at(image, n);
    store(image, n, Four { b3: count, ..tail });
}

#[tactic(auto, unfolding(crate::specs::Tail::next_count))]
fn next_count(c: u32) -> u32
    requires { c ≤ 0xFFFFFF }
    ensures { (result ≡ next_count c) × (result ≤ 0xFFFFFF) }
{
    if c < 0xFFFFFF { c + 1 } else { c }
}

#[tactic(auto, unfolding(crate::specs::Tail::counted, crate::specs::Tail::counter_in))]
fn counted(tail: Four) -> Four
    ensures { result ≡ counted tail }
{
    let count = u32::from_le_bytes([tail.b0, tail.b1, tail.b2, 0]);
    let [b0, b1, b2, _] = next_count(count).to_le_bytes();
    Four { b0, b1, b2, ..tail }
}

// One more on the counter.
pub fn count(image: &mut [u8], n: usize)
    requires { Fits n image.old }
    ensures { image.new ≡ store image.old n (counted (page_at image.old n)) }
{
    let tail = page_at(image, n);
    store(image, n, counted(tail));
}
