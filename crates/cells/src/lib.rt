// The cells beside a lent tree: the check of both, readings, postings, and saved cells lent again. Every call gets both as
// bytes (docs/FORMATS.md) and trusts none of them.
#![tactic(auto)]

pub mod bench;
pub mod cell;
pub mod check;
pub mod lent;
pub mod update;

// The size of a cell in the lent form (docs/FORMATS.md).
pub const CELL_SIZE: usize = 5;
