// What reading shows.
ghost use Rattle.std.specs.Prelude.{◌≡◌, ◌/◌, ◌%◌};
ghost use Rattle.image.specs.Layout.{Fits};
ghost use Rattle.image.specs.Shown.{shown, shown_page};

use crate::layout::{Four, page_at};

// Byte `at` of the image as reading shows it: zero in PWD and PACK, else the stored one.
#[tactic(auto, unfolding(crate::specs::Shown::shown, crate::specs::Layout::byte))]
pub fn shown(image: &[u8], n: usize, at: usize) -> u8
    requires { Fits n image.now }
    ensures { result ≡ shown n image.now (at / 4) (at % 4) }
{
    if at < 4 * (n - 2) { image[at] } else { 0 }
}

// The four bytes that reading shows of a page.
#[tactic(auto, unfolding(crate::specs::Shown::shown_page, crate::specs::Shown::shown, crate::specs::Layout::page_at, crate::specs::Layout::four_of))]
pub fn shown_page(image: &[u8], n: usize, page: usize) -> Four
    requires { Fits n image.now }
    ensures { result ≡ shown_page n image.now page }
{
    if page < n - 2 {
        page_at(image, page)
    } else {
        Four::from(0)
    }
}
