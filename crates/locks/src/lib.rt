// The two kinds of locks as numbers: which bit locks a page, and which bits a WRITE sets.
// That n is one of the three sizes stands in the contracts, and not in a type: all crates above count with n, and would open it each time.
#![tactic(auto)]

ghost use Rattle.std.specs.Prelude.{◌≡◌, ◌-◌, ◌/◌, ◌≤◌, ◌<◌};
ghost use Rattle.locks.specs.Bits.{is_set, of_bits};
ghost use Rattle.locks.specs.Locks.{Sized, pages_each, lock_of, bit_of, set_in, locked_by, clear_at, may_static, static_gain, may_dynamic, dynamic_gain, may_block, block_gain};
ghost use Rattle.locks.specs.Table.{rows_for};

// A lock bit: of the static locks, or of the dynamic locks.
#[derive(Clone, Copy, PartialEq, Eq)]
pub enum LockBit {
    Static(usize),
    Dynamic(usize),
}

// First page, last page and block bit of a dynamic lock bit. In four bytes, so that the compiler moves rows by the word.
#[derive(Clone, Copy)]
pub struct Row(pub u8, pub u8, pub u16);

// "N=45: twelve bits, two pages each"; "N=135: eight bits, sixteen each, the last only 128-129"; "N=231: fourteen bits, sixteen each,
// the last only 224-225".
const TABLE: [Row; 34] = [
    Row(16, 17, 0),
    Row(18, 19, 0),
    Row(20, 21, 1),
    Row(22, 23, 1),
    Row(24, 25, 2),
    Row(26, 27, 2),
    Row(28, 29, 3),
    Row(30, 31, 3),
    Row(32, 33, 4),
    Row(34, 35, 4),
    Row(36, 37, 5),
    Row(38, 39, 5),
    Row(16, 31, 0),
    Row(32, 47, 0),
    Row(48, 63, 1),
    Row(64, 79, 1),
    Row(80, 95, 2),
    Row(96, 111, 2),
    Row(112, 127, 3),
    Row(128, 129, 3),
    Row(16, 31, 0),
    Row(32, 47, 0),
    Row(48, 63, 1),
    Row(64, 79, 1),
    Row(80, 95, 2),
    Row(96, 111, 2),
    Row(112, 127, 3),
    Row(128, 143, 3),
    Row(144, 159, 4),
    Row(160, 175, 4),
    Row(176, 191, 5),
    Row(192, 207, 5),
    Row(208, 223, 6),
    Row(224, 225, 6),
];

// The rows of a size: one for each of its lock bits, in their order.
fn rows_of(n: usize) -> &'static [Row]
    requires { Sized n }
    ensures { result.now ≡ rows_for n }
{
    match n {
        45 => &TABLE[0..12],
        135 => &TABLE[12..20],
        _ => &TABLE[20..34],
    }
}

// The one dynamic lock bit that can have a page from 16 up: the bits cover user pages in order, each as many.
fn candidate(n: usize, page: usize) -> usize
    requires { 16 ≤ page }
    ensures { result ≡ (page - 16) / pages_each n }
{
    match n {
        45 => (page - 16) / 2,
        _ => (page - 16) / 16,
    }
}

// The lock bit of a page from 16 up. The row of its candidate decides.
fn dynamic_lock(n: usize, page: usize) -> Option<LockBit>
    requires { Sized n × (16 ≤ page) }
    ensures { result ≡ lock_of n page }
{
    let i = candidate(n, page);
    let row = *rows_of(n).get(i)?;
    if usize::from(row.0) <= page && page <= usize::from(row.1) {
        Some(LockBit::Dynamic(i))
    } else {
        None
    }
}

// The bit that locks a page, at n pages.
#[tactic(auto, using(crate::proofs::Lock::no_lock, crate::proofs::Lock::static_lock))]
pub fn lock_of(n: usize, page: usize) -> Option<LockBit>
    requires { Sized n }
    ensures { result ≡ lock_of n page }
{
    match page {
        0..=2 => None,
        3..=15 => Some(LockBit::Static(page)),
        _ => dynamic_lock(n, page),
    }
}

// Bit i of a number.
pub fn is_set(number: u16, i: usize) -> bool
    requires { i < 16 }
    ensures { result ≡ is_set number i }
{
    (number >> i) % 2 == 1
}

// Whether a lock bit is set.
fn set_in(statics: u16, dynamics: u16, lock: LockBit) -> bool
    requires { bit_of (Some lock) < 16 }
    ensures { result ≡ set_in statics dynamics (Some lock) }
{
    match lock {
        LockBit::Static(i) => is_set(statics, i),
        LockBit::Dynamic(i) => is_set(dynamics, i),
    }
}

// The bit that is set and locks a page, or none: then the page is open.
pub fn locked_by(n: usize, statics: u16, dynamics: u16, page: usize) -> Option<LockBit>
    requires { Sized n }
    ensures { result ≡ locked_by n statics dynamics page }
{
    let lock = lock_of(n, page)?;
    if set_in(statics, dynamics, lock) {
        Some(lock)
    } else {
        None
    }
}

// 1 where bit k is clear, else 0.
#[tactic(auto, unfolding(crate::specs::Locks::clear_at))]
fn clear(b: u16, k: usize) -> u16
    requires { k < 16 }
    ensures { (result ≡ clear_at b k) × (result ≤ 1) }
{
    1 - (b >> k) % 2
}

// The static locks that a WRITE may set.
#[tactic(auto, unfolding(crate::specs::Locks::may_static, crate::specs::Locks::static_block))]
fn static_mask(statics: u16) -> u16
    ensures { result ≡ of_bits 16 (may_static statics) }
{
    0x0007 + 0x0008 * clear(statics, 0) + 0x03F0 * clear(statics, 1) + 0xFC00 * clear(statics, 2)
}

// The dynamic locks that a WRITE may set: those whose row names a block bit that is clear. Two rows at a time, the last first, since
// "bit k blocks lock bits 2k and 2k+1".
fn dynamic_mask(n: usize, blocks: u16) -> u16
    requires { Sized n }
    ensures { result ≡ of_bits 16 (may_dynamic n blocks) }
{
    let rows = rows_of(n);
    let mut mask: u16 = 0;
    for i in (0..rows.len() / 2).rev() {
        let block = rows[2 * i].2;
        mask = 3 * clear(blocks, usize::from(block)) + 4 * mask;
    }
    mask
}

// The block bits of the lock page that are defined.
fn block_mask(n: usize) -> u8
    ensures { result ≡ of_bits 8 (may_block n) }
{
    match n {
        45 => 0x3F,
        135 => 0x0F,
        _ => 0x7F,
    }
}

// The static locks after a WRITE of page 2.
pub fn static_gain(statics: u16, d: u16) -> u16
    ensures { result ≡ static_gain statics d }
{
    statics | d & static_mask(statics)
}

// The dynamic locks after a WRITE of the lock page, whose block bits were these before it.
pub fn dynamic_gain(n: usize, blocks: u8, dynamics: u16, d: u16) -> u16
    requires { Sized n }
    ensures { result ≡ dynamic_gain n blocks dynamics d }
{
    dynamics | d & dynamic_mask(n, u16::from(blocks))
}

// The block bits after a WRITE of the lock page.
pub fn block_gain(n: usize, blocks: u8, d: u8) -> u8
    ensures { result ≡ block_gain n blocks d }
{
    blocks | d & block_mask(n)
}
