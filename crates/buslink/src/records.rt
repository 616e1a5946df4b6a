// A station's receiver over a lent slice of records, one for each indicator.
ghost use Rattle.std.specs.Prelude.{◌≡◌};
ghost use Rattle.protocol.specs.Refusal.{number_told};
ghost use Rattle.buslink.specs.Receive.{receive_list, Receives, usable_told};

use super::INDICATORS;
use super::indicator::Indicator;
use super::receive::Taken;
use protocol::Refusal;

// A frame received for a station: 1, 19, 20, or 0 with which of the indicators that it carried are usable.
pub fn receive(
    records: &mut [Indicator],
    base: u8,
    sub: u8,
    id: u32,
    payload: &[u8],
) -> Result<u16, Refusal>
    ensures { Receives (receive_list base sub id payload.now records.old) (number_told result) (usable_told result) records.new }
{
    let frame = Taken::judge(records.len() == INDICATORS, base, sub, id, payload)?;
    let place = frame.kind.place();
    records[place] = frame.first();
    if !frame.kind.is_last() {
        records[place + 1] = frame.second();
    }
    Ok(frame.usable())
}

// The same on an array by value, for a caller that wants the records alone.
pub fn received(
    records: [Indicator; 15],
    base: u8,
    sub: u8,
    id: u32,
    payload: &[u8],
) -> [Indicator; 15]
    ensures { result ≡ (receive_list base sub id payload.now records).records }
{
    let mut rs = records;
    let _ = receive(&mut rs, base, sub, id, payload);
    rs
}
