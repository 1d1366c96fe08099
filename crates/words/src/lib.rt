// The words of a line: where one ends, the numbers and bytes that arguments are, and the command that the first one names. No program's words are
// here: each has its own table of commands over these kinds of arguments.
#![tactic(auto)]

pub mod args;
pub mod rows;
pub mod word;
