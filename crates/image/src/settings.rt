// The settings: AUTH0 and the bits of ACCESS.
ghost use Rattle.std.specs.Prelude.{◌≡◌, ◌<◌};
ghost use Rattle.locks.specs.Bits.{is_set};
ghost use Rattle.image.specs.Layout.{Fits};
ghost use Rattle.image.specs.Settings.{auth0, access, prot, settings_locked, counter_on, counter_guarded, count_readable, authlim};

use crate::layout::byte;

pub fn auth0(image: &[u8], n: usize) -> u8
    requires { Fits n image.now }
    ensures { result ≡ auth0 n image.now }
{
    byte(image, n - 4, 3)
}

fn access(image: &[u8], n: usize) -> u8
    requires { Fits n image.now }
    ensures { result ≡ access n image.now }
{
    byte(image, n - 3, 0)
}

fn access_bit(image: &[u8], n: usize, i: usize) -> bool
    requires { Fits n image.now × (i < 8) }
    ensures { result ≡ is_set (access n image.now) i }
{
    locks::is_set(u16::from(access(image, n)), i)
}

pub fn prot(image: &[u8], n: usize) -> bool
    requires { Fits n image.now }
    ensures { result ≡ prot n image.now }
{
    access_bit(image, n, 7)
}

pub fn settings_locked(image: &[u8], n: usize) -> bool
    requires { Fits n image.now }
    ensures { result ≡ settings_locked n image.now }
{
    access_bit(image, n, 6)
}

pub fn counter_on(image: &[u8], n: usize) -> bool
    requires { Fits n image.now }
    ensures { result ≡ counter_on n image.now }
{
    access_bit(image, n, 4)
}

// Whether the counter is under password.
fn counter_guarded(image: &[u8], n: usize) -> bool
    requires { Fits n image.now }
    ensures { result ≡ counter_guarded n image.now }
{
    access_bit(image, n, 3)
}

pub fn authlim(image: &[u8], n: usize) -> u8
    requires { Fits n image.now }
    ensures { (result ≡ authlim n image.now) × (result < 8) }
{
    access(image, n) % 8
}

// Whether the counter may be shown to a reader that is authenticated or not.
#[tactic(auto, unfolding(crate::specs::Settings::count_readable))]
pub fn count_readable(image: &[u8], n: usize, authenticated: bool) -> bool
    requires { Fits n image.now }
    ensures { result ≡ count_readable n image.now authenticated }
{
    counter_on(image, n) && (authenticated || !counter_guarded(image, n))
}
