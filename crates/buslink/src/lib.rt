// Buslink over CAN (document 02, section 5; source 000): the frames in which a station sends its probes, and a station's receiver.
// Every call gets what it is lent as bytes (docs/FORMATS.md), or as records, and trusts none of it.
#![tactic(auto)]

mod identifier;
pub mod indicator;
mod probe;
mod receive;
pub mod records;
pub mod send;
pub mod table;

// How many indicators a station has, and the size of each on the bus and in a table.
pub const INDICATORS: usize = 15;

pub const INDICATOR_SIZE: usize = 4;

// The size of a table of records (docs/FORMATS.md, Buslink records).
pub const TABLE_SIZE: usize = 60;

// How many bytes a frame's data has.
pub const DATA_SIZE: usize = 8;

// The last type of a frame, which carries one indicator.
const LAST_TYPE: u8 = 9;
