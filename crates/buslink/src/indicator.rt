// An indicator: its four bytes put together and taken apart.
ghost use Rattle.std.specs.Prelude.{◌≡◌, ◌+◌, ◌%◌, ◌^◌, ◌<◌, ◌≤◌, length};
ghost use Rattle.buslink.specs.Indicator as rule;
ghost use Rattle.buslink.specs.Indicator.{bytes_of, indicator_in};
ghost use Rattle.buslink.specs.Steps.{usable_byte};

// The value is a word of 32 bits, signed; the status is as its bits stand in the fourth byte (source 000, 4.7).
#[derive(Clone, Copy)]
pub struct Indicator {
    pub value: u32,
    pub status: u8,
    pub format: u8,
}

pub(crate) const AVAILABLE: u8 = 0x80;

pub(crate) const ERROR: u8 = 0x40;

// The format of raw data (source 000, 4.8).
pub(crate) const RAW: u8 = 7;

// An indicator without a probe.
pub const BLANK: Indicator = Indicator {
    value: 0,
    status: 0,
    format: 0,
};

// 24 bits as a word: where the sign bit is set, so are all bits above it.
fn extended(v: u32) -> u32
    requires { v < 2 ^ 24 }
    ensures { result ≡ rule.extended v }
{
    if v >> 23 == 0 {
        return v;
    }
    0xFF << 24 | v
}

impl Indicator {
    // The four bytes of an indicator.
    pub(crate) fn to_bytes(self) -> [u8; 4]
        requires status { self.status % 2 ^ 3 ≡ 0 }
        requires format { self.format < 2 ^ 3 }
        ensures { result ≡ bytes_of self }
    {
        let [low, middle, high, _] = self.value.to_le_bytes();
        [low, middle, high, self.status | self.format]
    }

    // The indicator in the four bytes at the front of some bytes.
    pub(crate) fn from_bytes(bs: &[u8]) -> Indicator
        requires { 4 ≤ length bs.now }
        ensures { result ≡ indicator_in bs.now }
    {
        Indicator {
            value: extended(u32::from_le_bytes([bs[0], bs[1], bs[2], 0])),
            status: bs[3] & 0xF8,
            format: bs[3] & 7,
        }
    }
}

// Whether an indicator with this fourth byte is usable: AVAILABLE set and ERROR clear.
pub(crate) fn is_usable(d: u8) -> bool
    ensures { result ≡ usable_byte d }
{
    d >> 6 == 2
}
