// The radio side of the tag.
#![tactic(auto)]

mod call;
mod hear;

pub use call::{Answer, field_loss, field_off, frame};
