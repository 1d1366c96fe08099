// What an event answers, and its numbers.
ghost use Rattle.std.specs.Prelude.{◌≡◌};
ghost use Rattle.two_wire.specs.Answer.{answer_of, refusal_number, refused_as};

// What an event answers, in C too, so that it is numbers: that of a refused call, else 0; the kind, 0 for nothing, 1 for an acknowledge bit,
// 2 for a byte; and the bit or the byte.
#[repr(C)]
#[derive(Clone, Copy)]
pub struct BusAnswer {
    pub refused: u8,
    pub kind: u8,
    pub value: u8,
}

// What an event answers.
#[derive(Clone, Copy)]
pub enum Reply {
    Nothing,
    Acknowledged,
    Declined,
    Byte(u8),
}

// Why a call is refused.
#[derive(Clone, Copy, PartialEq, Eq)]
pub enum Refusal {
    WrongImage,
    WrongEvent,
    WrongMemory,
}

impl From<Refusal> for u8 {
    ghost from_gives = { λ refusal number. number ≡ refusal_number refusal };

    fn from(refusal: Refusal) -> u8 {
        match refusal {
            Refusal::WrongImage => 1,
            Refusal::WrongEvent => 4,
            Refusal::WrongMemory => 5,
        }
    }
}

impl From<Refusal> for BusAnswer {
    ghost from_gives = { λ refusal answer. answer ≡ refused_as refusal };

    fn from(refusal: Refusal) -> BusAnswer {
        BusAnswer {
            refused: u8::from(refusal),
            kind: 0,
            value: 0,
        }
    }
}

impl From<Reply> for BusAnswer {
    ghost from_gives = { λ reply answer. answer ≡ answer_of reply };

    fn from(reply: Reply) -> BusAnswer {
        let (kind, value) = match reply {
            Reply::Nothing => (0, 0),
            Reply::Acknowledged => (1, 1),
            Reply::Declined => (1, 0),
            Reply::Byte(byte) => (2, byte),
        };
        BusAnswer {
            refused: 0,
            kind,
            value,
        }
    }
}
