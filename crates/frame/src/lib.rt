// PENKO's TP over serial: frames, written and read.
#![tactic(auto)]

pub mod buffer;
mod checksum;
pub mod read;
pub mod size;
pub mod write;
