// A station's receiver over a table in lent bytes (docs/FORMATS.md, Buslink records).
ghost use Rattle.std.specs.Prelude.{◌≡◌};
ghost use Rattle.protocol.specs.Refusal.{number_told};
ghost use Rattle.buslink.specs.Receive.{receive_table, Receives, usable_told, told_in, told_of};

use super::indicator::Indicator;
use super::receive::Taken;
use super::{INDICATOR_SIZE, INDICATORS, TABLE_SIZE};
use frame::buffer;
use protocol::Refusal;

// A frame received for a station: 1, 19, 20, or 0 with which of the indicators that it carried are usable.
pub fn receive(table: &mut [u8], base: u8, sub: u8, id: u32, payload: &[u8]) -> Result<u16, Refusal>
    ensures { Receives (receive_table base sub id payload.now table.old) (number_told result) (usable_told result) table.new }
{
    let frame = Taken::judge(table.len() == TABLE_SIZE, base, sub, id, payload)?;
    buffer::put_all(frame.carried(), table, frame.kind.place() * INDICATOR_SIZE);
    Ok(frame.usable())
}

// The record of an indicator by its number: 1, 19 where it is not 1 to 15, or 0.
pub fn indicator_of(table: &[u8], n: u8) -> Result<Indicator, Refusal>
    ensures { told_of result ≡ told_in table.now n }
{
    if table.len() != TABLE_SIZE {
        return Err(Refusal::Unsound);
    }
    match usize::from(n) {
        n @ 1..=INDICATORS => Ok(Indicator::from_bytes(&table[(n - 1) * INDICATOR_SIZE..])),
        _ => Err(Refusal::BadIdentifier),
    }
}
