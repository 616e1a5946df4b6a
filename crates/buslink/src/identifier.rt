// Stations, frame types and identifiers.
ghost use Rattle.std.specs.Prelude.{◌≡◌, true};
ghost use Rattle.buslink.specs.Identifier.{is_station, is_indicator_type};

use super::LAST_TYPE;
use protocol::Refusal;

// What every identifier begins with.
const IDENTIFIERS: u32 = 0x15550000;

// A type of frames that carry indicators.
#[derive(Clone, Copy)]
pub(crate) struct FrameType {
    number: u8,
    ghost carries: { is_indicator_type number ≡ true },
}

impl TryFrom<u8> for FrameType {
    ghost use Rattle.buslink.specs.Steps.{IsType};

    type Error = Refusal;

    ghost try_from_gives = { IsType };

    #[tactic(auto, unfolding(crate::specs::Identifier::is_indicator_type))]
    fn try_from(number: u8) -> Result<FrameType, Refusal> {
        match number {
            2..=LAST_TYPE => Ok(FrameType { number }),
            _ => Err(Refusal::BadIdentifier),
        }
    }
}

impl FrameType {
    ghost use Rattle.std.specs.Prelude.{eqb};
    ghost use Rattle.buslink.specs.Identifier.{last_type};
    ghost use Rattle.buslink.specs.Receive.{place_of};

    // Where the first of its indicators stands among a station's.
    #[tactic(auto, unfolding(crate::specs::Identifier::is_indicator_type))]
    pub(crate) fn place(self) -> usize
        ensures { result ≡ place_of self.number }
    {
        2 * usize::from(self.number) - 4
    }

    // Whether it carries one indicator, and no second.
    pub(crate) fn is_last(self) -> bool
        ensures { result ≡ eqb self.number last_type }
    {
        self.number == LAST_TYPE
    }
}

// A station by its addresses.
#[derive(Clone, Copy)]
pub(crate) struct Station {
    base: u8,
    sub: u8,
    ghost addressed: { is_station base sub ≡ true },
}

impl Station {
    ghost use Rattle.buslink.specs.Identifier.{identifier};
    ghost use Rattle.buslink.specs.Steps.{IsStation, IsOwn};

    // The station with these addresses, where there is one.
    #[tactic(auto, unfolding(crate::specs::Identifier::is_station))]
    pub(crate) fn at(base: u8, sub: u8) -> Result<Station, Refusal>
        ensures { IsStation base sub result }
    {
        match (base, sub) {
            (1..=8, 1..=5) => Ok(Station { base, sub }),
            _ => Err(Refusal::BadIdentifier),
        }
    }

    // The identifier of its frame of a type.
    pub(crate) fn identifier(self, kind: FrameType) -> u32
        ensures { result ≡ identifier self.base self.sub kind.number }
    {
        let station = 5 * (u32::from(self.base) - 1) + u32::from(self.sub);
        IDENTIFIERS | u32::from(kind.number) << 8 | station
    }

    // The type of a frame by its identifier, where it is one of this station's that carries indicators.
    pub(crate) fn type_for(self, id: u32) -> Result<FrameType, Refusal>
        ensures { IsOwn self.base self.sub id result }
    {
        let kind = FrameType::try_from(((id >> 8) & 15) as u8)?;
        if self.identifier(kind) != id {
            return Err(Refusal::BadIdentifier);
        }
        Ok(kind)
    }
}
