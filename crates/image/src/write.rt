// Locks in an image, and what a WRITE that isn't refused leaves at its page.
ghost use Rattle.std.specs.Prelude.{◌≡◌, ◌<◌};
ghost use Rattle.locks.specs.Locks.{Sized};
ghost use Rattle.image.specs.Layout.{Fits};
ghost use Rattle.image.specs.Write.{locked_by, statics_written, capability_written, dynamics_written, write};

use crate::layout::{Four, Region, page_at, region_of, store};
use basics::{high_byte, low_byte, low_first};
use locks::LockBit;

// The bit that is set and locks a page, page 3 or a user page.
#[tactic(auto, unfolding(crate::specs::Write::locked_by, crate::specs::Write::statics, crate::specs::Write::dynamics, crate::specs::Layout::page_at))]
pub fn locked_by(image: &[u8], n: usize, page: usize) -> Option<LockBit>
    requires { Fits n image.now }
    ensures { result ≡ locked_by n image.now page }
{
    let statics = page_at(image, 2);
    let dynamics = page_at(image, n - 5);
    locks::locked_by(
        n,
        low_first(statics.b2, statics.b3),
        low_first(dynamics.b0, dynamics.b1),
        page,
    )
}

#[tactic(auto, unfolding(crate::specs::Write::statics_written))]
fn statics_written(old: Four, d: Four) -> Four
    ensures { result ≡ statics_written old d }
{
    let after = locks::static_gain(low_first(old.b2, old.b3), low_first(d.b2, d.b3));
    Four {
        b0: old.b0,
        b1: old.b1,
        b2: low_byte(after),
        b3: high_byte(after),
    }
}

#[tactic(auto, unfolding(crate::specs::Write::capability_written))]
fn capability_written(old: Four, d: Four) -> Four
    ensures { result ≡ capability_written old d }
{
    Four {
        b0: old.b0 | d.b0,
        b1: old.b1 | d.b1,
        b2: old.b2 | d.b2,
        b3: old.b3 | d.b3,
    }
}

#[tactic(auto, unfolding(crate::specs::Write::dynamics_written))]
fn dynamics_written(n: usize, old: Four, d: Four) -> Four
    requires { Sized n }
    ensures { result ≡ dynamics_written n old d }
{
    let after = locks::dynamic_gain(n, old.b2, low_first(old.b0, old.b1), low_first(d.b0, d.b1));
    Four {
        b0: low_byte(after),
        b1: high_byte(after),
        b2: locks::block_gain(n, old.b2, d.b2),
        b3: old.b3,
    }
}

// What a WRITE of d that isn't refused does. Each way stores by itself: with one store behind the match a user page takes eleven instructions more.
#[tactic(auto, unfolding(crate::specs::Write::write, crate::specs::Write::written, crate::specs::Write::written_in))]
pub fn write(image: &mut [u8], n: usize, page: usize, d: Four)
    requires { Fits n image.old × (page < n) }
    ensures { image.new ≡ write n image.old page d }
{
    let old = page_at(image, page);
    match region_of(n, page) {
        Region::StaticLocks => store(image, page, statics_written(old, d)),
        Region::Capability => store(image, page, capability_written(old, d)),
        Region::DynamicLocks => store(image, page, dynamics_written(n, old, d)),
        Region::Uid | Region::User | Region::Settings | Region::Password | Region::Outside => {
            store(image, page, d)
        }
    }
}
