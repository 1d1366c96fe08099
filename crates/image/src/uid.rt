// The UID and its check bytes.
ghost use Rattle.std.specs.Prelude.{◌≡◌, ◌≤◌, ◌<◌, length};
ghost use Rattle.image.specs.Uid.{uid, bcc0, bcc1};

use crate::layout::page_at;

// Byte i of the UID.
#[tactic(auto, unfolding(crate::specs::Uid::uid, crate::specs::Layout::byte))]
pub fn uid(image: &[u8], i: usize) -> u8
    requires { (i < 7) × (8 ≤ length image.now) }
    ensures { result ≡ uid image.now i }
{
    if i < 3 { image[i] } else { image[i + 1] }
}

#[tactic(auto, unfolding(crate::specs::Uid::bcc0, crate::specs::Uid::uid, crate::specs::Layout::page_at))]
pub fn bcc0(image: &[u8]) -> u8
    requires { 8 ≤ length image.now }
    ensures { result ≡ bcc0 image.now }
{
    let page = page_at(image, 0);
    0x88 ^ page.b0 ^ page.b1 ^ page.b2
}

#[tactic(auto, unfolding(crate::specs::Uid::bcc1, crate::specs::Uid::uid, crate::specs::Layout::page_at))]
pub fn bcc1(image: &[u8]) -> u8
    requires { 8 ≤ length image.now }
    ensures { result ≡ bcc1 image.now }
{
    let page = page_at(image, 1);
    page.b0 ^ page.b1 ^ page.b2 ^ page.b3
}
