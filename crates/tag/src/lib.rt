// The tag as the radio side has it: its state, the record that a board keeps of it, and what comes out of a frame.
#![tactic(auto)]

pub mod outcome;
pub mod record;
pub mod state;
