// Plays the tag on standard input and output: commands in, one a line, and one line out for each.
#![tactic(auto)]

mod board;
mod calls;

ghost use Rattle.std.specs.Prelude.{◌≡◌};
ghost use Rattle.corridor.specs.Played.{opening, program};
ghost use Rattle.corridor.specs.Alike.{long_alike};

use board::Board;
use input::{Program, run};
use lines::read::Sent;
use lines::write::{Kilobyte, Out, line_of};
use std::io::Write;
use std::marker::Model;

// The program: a board, with room for the bytes of a line and for those that answer a frame.
#[derive(Drop)]
struct Corridor {
    board: Board,
    bytes: Sent,
    answer: Kilobyte,
}

impl Model for Corridor {
    ghost use Rattle.corridor.specs.Played.{Board as Played·Board};

    ghost Value = { Played·Board };

    ghost view = { λ c. c.board };
}

impl Corridor {
    fn new() -> Self
        ensures { result ≡ opening }
    {
        Self {
            board: Board::new(),
            bytes: [0; 8192],
            answer: [0; 1024],
        }
    }
}

impl Program<2080> for Corridor {
    ghost meaning = { program };

    fn respond(&mut self, line: &[u8], out: &mut Out) {
        let told = self.board.act(&mut self.answer, &mut self.bytes, line);
        line_of(out, told, &self.answer, self.board.buffer());
    }

    ghost alike = { long_alike };
}

fn main(rt: HostRuntime) {
    let mut corridor = Corridor::new();
    let mut out = Out::new();
    let ended = run(&mut corridor, &mut rt.stdin(), &mut rt.stdout(), &mut out);
    if ended.is_err() {
        let _ = rt
            .stderr()
            .write_all(b"corridor: the output can't be written\n");
    }
}
