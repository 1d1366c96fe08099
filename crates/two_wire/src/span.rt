// Addresses that follow one another, and the bytes of a lent buffer behind them.
ghost use Rattle.std.specs.Prelude.{◌≡◌, ◌+◌, ◌<◌, ◌≤◌};
ghost use Rattle.two_wire.specs.Span.{within, offset, stores, following, counted};

// The first address, how many there are, and how many of the first bytes this side doesn't store.
#[derive(Clone, Copy)]
pub struct Span {
    pub first: u16,
    pub length: usize,
    pub kept: usize,
}

impl Span {
    // The byte behind an address. The difference of two u16, widened, was counted: an instruction more for each byte of a bus read.
    pub fn offset(self, address: u16) -> usize
        requires { self.first ≤ address }
        ensures { result ≡ offset self address }
    {
        usize::from(address) - usize::from(self.first)
    }

    #[tactic(auto, unfolding(crate::specs::Span::within))]
    pub fn within(self, address: u16) -> bool
        ensures { result ≡ within self address }
    {
        self.first <= address && self.offset(address) < self.length
    }

    // The address after that of byte `at`, last to first.
    #[tactic(auto, unfolding(crate::specs::Span::following))]
    pub fn following(self, at: usize) -> u16
        requires { (at < self.length) × (self.first + self.length ≤ 0xFFFF) }
        ensures { result ≡ following self (self.first + at) }
    {
        if at + 1 == self.length {
            self.first
        } else {
            self.first + (at + 1) as u16
        }
    }

    // The byte that a counter counts as: the first one, where it is outside.
    #[tactic(auto, unfolding(crate::specs::Span::within, crate::specs::Span::counted))]
    pub fn byte_counted(self, counter: u16) -> usize
        ensures { result ≡ offset self (counted self counter) }
    {
        if self.within(counter) {
            self.offset(counter)
        } else {
            0
        }
    }
}
