// The bits that a level of the cascade goes by.
ghost use Rattle.std.specs.Prelude.{◌≡◌, ◌-◌, ◌/◌, ◌%◌, ◌^◌, ◌≤◌, ◌<◌, get_or};
ghost use Rattle.selection.specs.Selection.{forty};

// Five bytes as one number, the first lowest.
#[derive(Clone, Copy, PartialEq, Eq)]
pub struct Forty {
    number: u64,
    pub ghost fits: { number < 2 ^ 40 },
}

impl From<[u8; 5]> for Forty {
    ghost from_gives = { λ bytes bits. bits.number ≡ forty (get_or bytes 0 0) (get_or bytes 1 0) (get_or bytes 2 0) (get_or bytes 3 0) (get_or bytes 4 0) };

    #[tactic(auto, unfolding(crate::specs::Selection::forty))]
    fn from(bytes: [u8; 5]) -> Forty {
        let [a, b, c, d, e] = bytes;
        Forty {
            number: u64::from_le_bytes([a, b, c, d, e, 0, 0, 0]),
        }
    }
}

impl Forty {
    // The first n bits alone.
    pub fn first(self, n: usize) -> Forty
        requires { n ≤ 39 }
        ensures { result.number ≡ self.number % 2 ^ n }
    {
        Forty {
            number: self.number % (1 << n),
        }
    }

    // Those behind the first n.
    #[tactic(auto, using(crate::proofs::Laws::others_fit))]
    pub fn others(self, n: usize) -> u64
        requires { n ≤ 39 }
        ensures { (result ≡ self.number / 2 ^ n) × (result < 2 ^ (40 - n)) }
    {
        self.number >> n
    }
}
