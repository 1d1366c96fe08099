// Does the workshop's work on images: commands in, one a line, and one line out for each. Nothing is kept from line to line.
#![tactic(auto)]

mod work;

ghost use Rattle.workshop.specs.Worked.{program};
ghost use Rattle.workshop.specs.Alike.{long_alike};

use input::{Program, run};
use jobs::read::Sent;
use jobs::write::{Out, line_of};
use std::io::Write;
use std::marker::Model;
use work::answer_to;

// The program: room for the bytes of a line.
#[derive(Drop)]
struct Workshop {
    bytes: Sent,
}

impl Model for Workshop {
    ghost Value = { Unit };

    ghost view = { λ w. tt };
}

impl Program<2206> for Workshop {
    ghost meaning = { program };

    #[tactic(auto, unfolding(crate::specs::Worked::program))]
    fn respond(&mut self, line: &[u8], out: &mut Out) {
        let told = answer_to(line, &mut self.bytes);
        line_of(out, told, &self.bytes);
    }

    ghost alike = { long_alike };
}

fn main(rt: HostRuntime) {
    let mut workshop = Workshop { bytes: [0; 1100] };
    let mut out = Out::new();
    let ended = run(&mut workshop, &mut rt.stdin(), &mut rt.stdout(), &mut out);
    if ended.is_err() {
        let _ = rt
            .stderr()
            .write_all(b"workshop: the output can't be written\n");
    }
}
