// Text put into a lent buffer: bytes, numbers, paths and lines; and numbers read. Every call that puts writes as far as there is
// room, from the output's place on, and moves the place behind all that it had to write: with no room at all it only counts.
#![tactic(auto)]

pub mod fill;
pub mod line;
pub mod number;
pub mod output;
pub mod read;
pub mod unwritten;
