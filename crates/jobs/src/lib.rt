// The lines of the workshop program: what a line asks for, and the line that answers it.
#![tactic(auto)]

pub mod read;
pub mod write;
