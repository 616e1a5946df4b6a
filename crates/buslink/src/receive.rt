// A frame received: whether a station takes it, and which of its indicators are usable.
ghost use Rattle.std.specs.Prelude.{◌≡◌, length};

use super::identifier::{FrameType, Station};
use super::indicator::Indicator;
use super::{DATA_SIZE, INDICATOR_SIZE, indicator};
use protocol::Refusal;

// A frame that a station takes: its type and its data.
#[derive(Clone, Copy)]
pub(crate) struct Taken<'a> {
    pub kind: FrameType,
    pub payload: &'a [u8],
    ghost whole: { length payload.now ≡ 8 },
}

impl<'a> Taken<'a> {
    ghost use Rattle.buslink.specs.Receive.{first_in, second_in, usable_of};
    ghost use Rattle.buslink.specs.Steps.{JudgedIs, carried};

    // A frame judged, for records that have a form or none: 1, 19, 20 or 0.
    pub(crate) fn judge(
        formed: bool,
        base: u8,
        sub: u8,
        id: u32,
        payload: &'a [u8],
    ) -> Result<Taken<'a>, Refusal>
        ensures { JudgedIs formed base sub id payload.now result }
    {
        if !formed {
            return Err(Refusal::Unsound);
        }
        let kind = Station::at(base, sub)?.type_for(id)?;
        if payload.len() != DATA_SIZE {
            return Err(Refusal::BadLength);
        }
        Ok(Taken { kind, payload })
    }

    // The part of its data that holds indicators.
    pub(crate) fn carried(self) -> &'a [u8]
        ensures { result.now ≡ carried self.entry.kind.number self.entry.payload.now }
    {
        if self.kind.is_last() {
            return &self.payload[..INDICATOR_SIZE];
        }
        self.payload
    }

    // Its indicators. (The last type has no second.)
    pub(crate) fn first(self) -> Indicator
        ensures { result ≡ first_in self.entry.payload.now }
    {
        Indicator::from_bytes(self.payload)
    }

    pub(crate) fn second(self) -> Indicator
        ensures { result ≡ second_in self.entry.payload.now }
    {
        Indicator::from_bytes(&self.payload[INDICATOR_SIZE..])
    }

    // Which of its indicators are usable, bit n - 1 for indicator n.
    pub(crate) fn usable(self) -> u16
        ensures { result ≡ usable_of self.entry.kind.number self.entry.payload.now }
    {
        let place = self.kind.place();
        let first = u16::from(indicator::is_usable(self.payload[3]));
        if self.kind.is_last() {
            return first << place;
        }
        let second = u16::from(indicator::is_usable(self.payload[7]));
        (second << 1 | first) << place
    }
}
