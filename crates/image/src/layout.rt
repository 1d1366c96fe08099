// Sizes, regions, and the bytes of a page.
ghost use Rattle.std.specs.Prelude.{◌≡◌, ℕ, ◌+◌, ◌*◌, ◌≤◌, ◌<◌, length};
ghost use Rattle.std.proofs.lemmas.List.Edits.{sets};
ghost use Rattle.image.specs.Layout.{size_of, byte, four_at, page_at, bytes_of, store, region_of, four_of, low_first_four};

// How many pages an image has, where its length tells a size.
#[tactic(auto, unfolding(crate::specs::Layout::size_of))]
pub fn size_of(length: usize) -> Option<usize>
    ensures { result ≡ size_of length }
{
    match length {
        184 => Some(45),
        544 => Some(135),
        928 => Some(231),
        _ => None,
    }
}

// What a page is for.
#[derive(Clone, Copy, PartialEq, Eq)]
pub enum Region {
    Uid,
    StaticLocks,
    Capability,
    User,
    DynamicLocks,
    Settings,
    Password,
    Outside,
}

// The region of a page from 4 on, by its distance from the end.
#[tactic(auto, unfolding(crate::specs::Layout::region_of))]
fn region_from_end(distance: usize) -> Region
    ensures { (n p : ℕ) → 4 ≤ p → p + distance ≡ n → 0 < distance → result ≡ region_of n p }
{
    match distance {
        0..=2 => Region::Password,
        3..=4 => Region::Settings,
        5 => Region::DynamicLocks,
        _ => Region::User,
    }
}

#[tactic(auto, unfolding(crate::specs::Layout::region_of))]
pub fn region_of(n: usize, page: usize) -> Region
    ensures { result ≡ region_of n page }
{
    if n <= page {
        return Region::Outside;
    }
    match page {
        0..=1 => Region::Uid,
        2 => Region::StaticLocks,
        3 => Region::Capability,
        _ => region_from_end(n - page),
    }
}

// Byte k of a page.
#[tactic(auto, unfolding(crate::specs::Layout::byte))]
pub fn byte(image: &[u8], page: usize, k: usize) -> u8
    requires { (k < 4) × (4 * page + 4 ≤ length image.now) }
    ensures { result ≡ byte image.now page k }
{
    image[4 * page + k]
}

// Four bytes, as those of a page.
#[derive(Clone, Copy, PartialEq, Eq)]
pub struct Four {
    pub b0: u8,
    pub b1: u8,
    pub b2: u8,
    pub b3: u8,
}

// The four bytes of a number, low byte first.
impl From<u32> for Four {
    ghost from_gives = { λ n v. v ≡ four_of n };

    #[tactic(auto, unfolding(crate::specs::Layout::four_of))]
    fn from(n: u32) -> Four {
        let [b0, b1, b2, b3] = n.to_le_bytes();
        Four { b0, b1, b2, b3 }
    }
}

// And their number.
impl From<Four> for u32 {
    ghost from_gives = { λ v n. n ≡ low_first_four v };

    #[tactic(auto, unfolding(crate::specs::Layout::low_first_four))]
    fn from(v: Four) -> u32 {
        u32::from_le_bytes([v.b0, v.b1, v.b2, v.b3])
    }
}

// The four bytes from `at` on.
#[tactic(auto, unfolding(crate::specs::Layout::four_at))]
pub fn four_at(bytes: &[u8], at: usize) -> Four
    requires { at + 4 ≤ length bytes.now }
    ensures { result ≡ four_at bytes.now at }
{
    Four {
        b0: bytes[at],
        b1: bytes[at + 1],
        b2: bytes[at + 2],
        b3: bytes[at + 3],
    }
}

// The four bytes of a page.
#[tactic(auto, unfolding(crate::specs::Layout::page_at, crate::specs::Layout::four_at, crate::specs::Layout::byte))]
pub fn page_at(image: &[u8], page: usize) -> Four
    requires { 4 * page + 4 ≤ length image.now }
    ensures { result ≡ page_at image.now page }
{
    four_at(image, 4 * page)
}

// The page writer: four bytes are lent to it.
#[tactic(auto, unfolding(crate::specs::Layout::bytes_of))]
fn put(page: &mut [u8], v: Four)
    requires { length page.old ≡ 4 }
    ensures { page.new ≡ bytes_of v }
{
    page.copy_from_slice(&[v.b0, v.b1, v.b2, v.b3]);
}

// Other bytes from `at` on.
#[tactic(auto, using(crate::proofs::Stored::part_back), unfolding(crate::specs::Layout::bytes_of))]
pub fn put_at(bytes: &mut [u8], at: usize, v: Four)
    requires { at + 4 ≤ length bytes.old }
    ensures { bytes.new ≡ sets bytes.old at (bytes_of v) }
{
    put(&mut bytes[at..at + 4], v);
}

// Other bytes at a page.
#[tactic(auto, unfolding(crate::specs::Layout::store))]
pub fn store(image: &mut [u8], page: usize, v: Four)
    requires { 4 * page + 4 ≤ length image.old }
    ensures { image.new ≡ store image.old page v }
{
    put_at(image, 4 * page, v);
}
