// A frame as the tag heard it, and its bytes.
ghost use Rattle.std.specs.Prelude.{◌≡◌, ◌+◌, ◌/◌, length, get_or};

// Its bytes, the number of its bits, and whether each byte came with good parity. The bytes are the bits rounded up.
#[derive(Clone, Copy)]
pub struct Frame<'a> {
    pub bytes: &'a [u8],
    pub bits: usize,
    pub parity: bool,
    pub ghost whole: { length bytes.now ≡ (bits + 7) / 8 },
}

// Byte i of a frame, zero behind its end.
pub fn byte_of(bytes: &[u8], i: usize) -> u8
    ensures { result ≡ get_or bytes.now i 0 }
{
    bytes.get(i).copied().unwrap_or(0)
}

impl Frame<'_> {
    pub fn byte(self, i: usize) -> u8
        ensures { result ≡ get_or self.entry.bytes.now i 0 }
    {
        byte_of(self.bytes, i)
    }
}
