// The corridor screen: what it says of the reading in an image.
#![tactic(auto)]

mod blocks;
mod call;
mod reading;
mod refusals;

pub use call::{ScreenAnswer, Shown, screen};
pub use reading::Verdict;
pub use refusals::Refusal;
