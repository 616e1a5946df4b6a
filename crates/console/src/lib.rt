// What the bench program does with its input (document 01, Bench tree and its cases), on slices: bytes of the stream in, lines
// of text out.
#![tactic(auto)]

pub mod bench;
mod lines;
