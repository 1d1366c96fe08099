// Why an image has no reading to show, and the numbers of that.
ghost use Rattle.std.specs.Prelude.{◌≡◌};
ghost use Rattle.screen.specs.Screen.{refusal_number};

#[derive(Clone, Copy, PartialEq, Eq)]
pub enum Refusal {
    WrongImage,
    NoMessage,
    // A length, or the bytes that it counts, passes the user pages.
    Passes,
    NoReading,
}

impl From<Refusal> for u8 {
    ghost from_gives = { λ refusal n. n ≡ refusal_number refusal };

    fn from(refusal: Refusal) -> u8 {
        match refusal {
            Refusal::WrongImage => 1,
            Refusal::NoMessage => 20,
            Refusal::Passes => 21,
            Refusal::NoReading => 22,
        }
    }
}
