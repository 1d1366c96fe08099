// The lines of the corridor program: what a line asks for, and the line that answers it.
#![tactic(auto)]

pub mod read;
pub mod write;
