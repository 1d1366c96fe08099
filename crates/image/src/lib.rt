// What the bytes of an image are. An image and its number of pages n go side by side, and each contract says `Fits n image`: were they one struct, each
// contract of a function that changes the image would say in its place that n and the slice that is lent stay the same, and be no shorter.
#![tactic(auto)]

pub mod layout;
pub mod mirror;
pub mod settings;
pub mod shown;
pub mod tail;
pub mod uid;
pub mod write;
