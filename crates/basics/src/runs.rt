// Runs of bytes: a run laid over the front of another, and where a byte first stands in one.
ghost use Rattle.std.specs.Prelude.{◌≡◌, ◌==◌, ◌++◌, ◌+◌, ◌≤◌, length, drop, position};
ghost use Rattle.basics.specs.Runs.{slice, index_of};

// The bytes of `from` go over the front of `to`, whose other bytes stay.
pub fn copy(from: &[u8], to: &mut [u8])
    requires { length from.now ≤ length to.old }
    ensures { to.new ≡ from.now ++ drop (length from.now) to.old }
{
    to[..from.len()].copy_from_slice(from);
}

// Where the byte first stands.
fn first(text: &[u8], byte: u8) -> Option<usize>
    ensures { result ≡ position (λ b. b == byte) text.now }
{
    text.iter().position(|b| *b == byte)
}

// The first place from `start` on, and before `end`, at which the byte stands; `end`, where it doesn't.
pub fn find(text: &[u8], start: usize, end: usize, byte: u8) -> usize
    requires { (start ≤ end) × (end ≤ length text.now) }
    ensures within { (start ≤ result) × (result ≤ end) }
    ensures first { result ≡ start + index_of byte (slice start end text.now) }
{
    match first(&text[start..end], byte) {
        Some(i) => start + i,
        None => end,
    }
}
