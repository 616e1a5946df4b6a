// The stream reader: bytes fed as they come, over a state that the caller lends.
#![tactic(auto)]

pub mod feed;
pub mod state;
