// The reply codes (document 003, section 4).
pub const ERROR: u8 = 0x54;

pub const ACK: u8 = 0x55;

pub const DISABLED: u8 = 0x57;

pub const NAK: u8 = 0x58;

pub const ILLEGAL: u8 = 0x59;
