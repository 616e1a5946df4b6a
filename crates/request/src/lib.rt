// PDI requests, read from data, serial strings and datagrams.
#![tactic(auto)]

pub mod read;

ghost use Rattle.protocol.specs.KeptPath.{path_in};
ghost use Rattle.protocol.specs.Refusal.{op_number};
ghost use Rattle.protocol.specs.Request.{request_of, Allowed};

use protocol::path::Path;
use protocol::{Op, PropertyIndex};

// A request that the table allows: its path, its op, its index and its value. The bytes of the path past its numbers are 0. The path
// stands first, so that it is copied in whole words.
#[derive(Clone, Copy)]
pub struct Request {
    pub path: Path,
    pub op: Op,
    pub index: PropertyIndex,
    pub value: u32,
    ghost allowed: { Allowed (request_of (op_number op) (path_in path) index.0 value) },
}
