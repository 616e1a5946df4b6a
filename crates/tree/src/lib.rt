// The lent tree, and what is read from it: numbers at a place, a property's fields, the texts of nodes and properties. Every
// call gets it as bytes (docs/FORMATS.md) and trusts none of them.
#![tactic(auto)]

pub mod bench;
pub mod bytes;
pub mod live;
pub mod part;
pub mod range;
pub mod record;
pub mod step;
mod texts;

// Sizes of records in the lent forms (docs/FORMATS.md).
pub const NODE_SIZE: usize = 3;

pub const PROPERTY_SIZE: usize = 16;
