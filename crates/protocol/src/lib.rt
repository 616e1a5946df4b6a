// The definitions of the protocol are in specs/, and what is proved of them in proofs/. This file has the types that every crate above
// shares: node numbers and property indexes, which it keeps apart, refusals, operations and (path) a path as code keeps it; and the
// codes and limits that code needs, under the names of specs/Numbers.antt.
#![tactic(auto)]

pub mod codes;
pub mod path;

ghost use Rattle.std.specs.Prelude.{◌≡◌};
ghost use Rattle.protocol.specs.Refusal.{refusal_number, op_number, IsOp};

// A node's number among the children of its parent (document 01, The tree).
#[derive(Drop)]
pub struct NodeNumber(pub u8);

// A property's number among the properties of its node.
#[derive(Clone, Copy)]
pub struct PropertyIndex(pub u8);

// Why a call refuses (document 01, Numbers returned; document 02, sections 7, 3 and 5, from 15, 17 and 19 on). The numbers are those
// that C is told.
#[derive(Clone, Copy, Debug, PartialEq, Eq)]
pub enum Refusal {
    Unsound = 1,
    NoPreamble = 2,
    BadPair = 3,
    TooShort = 4,
    TooLong = 5,
    BadChecksum = 6,
    OtherAddress = 7,
    NoRoom = 8,
    Disabled = 9,
    UnknownCommand = 10,
    BadParameter = 11,
    NoReading = 12,
    NotSaved = 13,
    NotLive = 14,
    NoSuchNode = 15,
    NoSuchProperty = 16,
    BadSheet = 17,
    NotInRange = 18,
    BadIdentifier = 19,
    BadLength = 20,
}

impl From<Refusal> for u8 {
    ghost from_gives = { λ r n. n ≡ refusal_number r };

    fn from(refusal: Refusal) -> u8 {
        refusal as u8
    }
}

// The operations of PDI (document 003, section 5).
#[derive(Clone, Copy, Debug, PartialEq, Eq)]
pub enum Op {
    Detect = 0,
    Node = 1,
    Record = 2,
    Read = 3,
    Write = 4,
    WriteExtended = 5,
}

impl From<Op> for u8 {
    ghost from_gives = { λ op n. n ≡ op_number op };

    fn from(op: Op) -> u8 {
        op as u8
    }
}

impl TryFrom<u8> for Op {
    type Error = Refusal;

    ghost try_from_gives = { IsOp };

    fn try_from(n: u8) -> Result<Op, Refusal> {
        match n {
            0 => Ok(Op::Detect),
            1 => Ok(Op::Node),
            2 => Ok(Op::Record),
            3 => Ok(Op::Read),
            4 => Ok(Op::Write),
            5 => Ok(Op::WriteExtended),
            _ => Err(Refusal::UnknownCommand),
        }
    }
}

// What C is told where a call refuses nothing (document 01, Numbers returned), and where it ended no frame.
pub const DONE: u8 = 0;

pub const NO_FRAME: u8 = 255;

// No action is to be taken: no property has this place.
pub const NO_ACTION: u8 = 255;

// The characters of a frame (document 003, section 2).
pub const STX: u8 = 0x02;

pub const ETX: u8 = 0x03;

pub const DLE: u8 = 0x10;

// The command of PDI, and the last operations that ask for a path alone and for no value (document 003, sections 4 and 5).
pub const PDI: u8 = 0xB4;

pub const OP_NODE: u8 = 1;

pub const OP_READ: u8 = 3;

// Record types (document 003, 5.3).
pub const STANDARD: u8 = 1;

pub const ENUMERATION: u8 = 2;

// Attribute and format bits, by their place in the number (document 003, 5.3).
pub const BIT_READ: u32 = 0;

pub const BIT_WRITE: u32 = 1;

pub const BIT_LIVE: u32 = 13;

pub const BIT_SIGNED: u32 = 15;

// The step code: the lowest of its format bits, what masks it there, and the last code that means a step (document 02, section 6).
pub const BIT_STEP: u32 = 8;

pub const STEP_MASK: u16 = 0x0F;

pub const LAST_STEP_CODE: u16 = 11;

// The status of a read that succeeded (document 003, 5.4), and the save byte (5.5).
pub const STATUS_OK: u8 = 0x01;

pub const SAVE_FAILED: u8 = 0x00;

pub const SAVE_DONE: u8 = 0x01;

pub const SAVE_NONE: u8 = 0x02;

// Limits (document 01).
pub const MAX_DATA: usize = 256;

pub const MAX_CONTENT: usize = 258;

pub const ROOM_DATA: usize = 256;

pub const ROOM_UDP: usize = 260;

pub const ROOM_SERIAL: usize = 520;

pub const MAX_DEPTH: usize = 16;

pub const MAX_NODES: usize = 64;

pub const MAX_PROPERTIES: usize = 128;

pub const NAME_ROOM: usize = 24;

pub const MAX_TEXTS: usize = 160;

pub const MAX_OPTION: u32 = 15;

pub const FIRST_CHARACTER: u8 = 0x20;

pub const LAST_CHARACTER: u8 = 0x7E;
