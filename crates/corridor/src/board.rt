// The board that is played, and what each command does to it. Nothing here knows the tag's rules: every answer comes from the frame call, the
// field loss and the bus event.
ghost use Rattle.std.specs.Prelude.{◌≡◌, List, ℕ, ◌≤◌, length, take, get_or};
ghost use Rattle.lines.specs.Said.{verb_of, said_of, AskedFits};
ghost use Rattle.corridor.specs.Played.{opening, obeyed, takes, lends, lends_memory, loses, hears, sees, shows, recalls, played};
ghost use Rattle.corridor.specs.Acts.{Tells, Acts, Leaves};

use crate::calls::{bus_told, event_number, event_told, frame_told, step_on, tag_told};
use basics::copy;
use lines::read::{Sent, Verb, asked_of};
use lines::write::{Answer, Kilobyte};
use std::marker::Model;
use tag::record::TagRecord;
use two_wire::{BusRecord, MEMORY_LENGTH};
use words::args::Refusal;
use words::rows::Asked;

// The image and the data memory, each at the start of a buffer, which a line is written from whole; how many bytes are lent for an answer; and
// the two records.
#[derive(Drop)]
pub struct Board {
    image: Kilobyte,
    size: usize,
    lent: usize,
    memory: [u8; MEMORY_LENGTH],
    room: usize,
    tag: TagRecord,
    bus: BusRecord,
}

impl Model for Board {
    ghost use Rattle.std.specs.Prelude.{◌≤◌, take};
    ghost use Rattle.corridor.specs.Played.{Board as Played·Board};

    ghost Value = { Played·Board };

    ghost view = { λ b. record { image = take b.size b.image; lent = b.lent; memory = take b.room b.memory; tag = b.tag; bus = b.bus } };

    ghost invariant = { λ b. (b.size ≤ 1024) × (b.lent ≤ 1024) × (b.room ≤ 16384) };
}

impl Board {
    pub fn new() -> Self
        ensures { result ≡ opening }
    {
        Self {
            image: [0; 1024],
            size: 0,
            lent: 1024,
            memory: [0; MEMORY_LENGTH],
            room: MEMORY_LENGTH,
            tag: radio::field_off(),
            bus: two_wire::bus_at_rest(),
        }
    }

    // The buffer at whose start the image stands.
    pub fn buffer(&self) -> &Kilobyte
        ensures { take (length self.now.image) result.now ≡ self.now.image }
    {
        &self.image
    }

    fn take_image(&mut self, bytes: &[u8]) -> Answer
        requires { length bytes.now ≤ 1024 }
        ensures { Leaves (takes self.old bytes.now) self.new result }
    {
        let size = bytes.len();
        copy(bytes, &mut self.image);
        self.size = size;
        self.tag = radio::field_off();
        self.bus = two_wire::bus_at_rest();
        Answer::Taken(size)
    }

    fn lend(&mut self, n: usize) -> Answer
        requires { n ≤ 1024 }
        ensures { Leaves (lends self.old n) self.new result }
    {
        self.lent = n;
        Answer::Lent(n)
    }

    fn lend_memory(&mut self, n: usize) -> Answer
        requires { n ≤ 16384 }
        ensures { Leaves (lends_memory self.old n) self.new result }
    {
        self.memory[..n].fill(0);
        self.room = n;
        Answer::Memory(n)
    }

    fn lose_field(&mut self) -> Answer
        ensures { Leaves (loses self.old) self.new result }
    {
        self.tag = radio::field_loss(self.tag);
        Answer::Lost
    }

    fn hear(&mut self, answer: &mut Kilobyte, bytes: &[u8], bits: usize, good: bool) -> Answer
        ensures { Acts (hears self.old bits bytes.now good) self.new result answer.new }
    {
        let size = self.size;
        let lent = self.lent;
        let tag = self.tag;
        let heard = radio::frame(
            &mut self.image[..size],
            &mut answer[..lent],
            tag,
            bytes,
            bits,
            good,
        );
        self.tag = heard.left;
        frame_told(heard)
    }

    fn see(&mut self, number: usize, byte: u8) -> Answer
        ensures { Leaves (sees self.old number byte) self.new result }
    {
        let size = self.size;
        let room = self.room;
        let bus = self.bus;
        // parts of two fields can't be lent at once: no proof of it is found
        let Board { image, memory, .. } = self;
        let step = step_on(image, size, memory, room, bus, event_number(number), byte);
        self.bus = step.bus;
        event_told(step.answer)
    }

    // What `show` is answered by: the image, or the page whose number it has.
    fn shown(&self, bytes: &[u8]) -> Answer
        ensures { (buf : List ℕ) → Tells (shows self.now.image bytes.now) self.now result buf }
    {
        match bytes {
            [] => Answer::Shown(self.size),
            [page, ..] => Answer::Page(*page, self.size),
        }
    }

    // What `recall` is answered by: the `n` bytes of the data memory from byte `at` on, at the start of `answer`.
    fn recalled(&self, answer: &mut Kilobyte, at: usize, n: usize) -> Answer
        requires { (at ≤ 65535) × (n ≤ 1024) }
        ensures { Tells (recalls self.now.memory at n) self.now result answer.new }
    {
        let most = self.room;
        let end = at + n;
        if n == 0 || end > most {
            return Answer::NotSoWritten;
        }
        copy(&self.memory[at..end], answer);
        Answer::Recalled(n)
    }

    // Carries out a command. The bytes of a frame's answer, and those recalled, are then at the start of `answer`.
    fn obey(&mut self, answer: &mut Kilobyte, bytes: &Sent, asked: Asked<Verb>) -> Answer
        requires { AskedFits asked }
        ensures { Acts (obeyed self.old asked.verb (get_or asked.given.numbers 0 0) (get_or asked.given.numbers 1 0) (take asked.given.end bytes.now)) self.new result answer.new }
    {
        let given = asked.given;
        let sent = &bytes[..given.end];
        let n = given.numbers[0] as usize;
        let second = given.numbers[1];
        match asked.verb {
            Verb::Image => self.take_image(sent),
            Verb::Buffer => self.lend(n),
            Verb::Field => self.lose_field(),
            Verb::Frame => self.hear(answer, sent, n, true),
            Verb::Parity => self.hear(answer, sent, n, false),
            Verb::Start => self.see(0, 0),
            Verb::Stop => self.see(1, 0),
            Verb::Send => self.see(2, n as u8),
            Verb::Read => self.see(3 + n, 0),
            Verb::Event => self.see(n, second as u8),
            Verb::Show => self.shown(sent),
            Verb::Help => Answer::Help,
            Verb::Tag => tag_told(self.tag),
            Verb::Bus => bus_told(self.bus),
            Verb::Memory => self.lend_memory(n),
            Verb::Recall => self.recalled(answer, n, second as usize),
        }
    }

    // Carries out what a line asks for, whose bytes are then in `bytes`.
    pub fn act(&mut self, answer: &mut Kilobyte, bytes: &mut Sent, line: &[u8]) -> Answer
        ensures { Acts (played self.old (verb_of line.now) (said_of line.now)) self.new result answer.new }
    {
        match asked_of(line, bytes) {
            Ok(asked) => self.obey(answer, bytes, asked),
            Err(refused) => match refused.refusal {
                Refusal::Unknown => Answer::NoSuchCommand,
                Refusal::Wrong => Answer::NotSoWritten,
                Refusal::Long => Answer::TooLong,
            },
        }
    }
}
