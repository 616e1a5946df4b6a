// Serial frames, written.
ghost use Rattle.std.specs.Prelude.{◌+◌, ◌*◌, ◌≤◌, length};
ghost use Rattle.protocol.specs.Numbers.{room_serial};
ghost use Rattle.protocol.specs.Refusal.{number_told, length_told};
ghost use Rattle.protocol.specs.Frame.{frame, write_frame, if_room};
ghost use Rattle.protocol.specs.Buffer.{Put, Emits};
ghost use Rattle.frame.specs.Steps.{PutBody};

use super::{buffer, checksum, size};
use protocol::{DLE, ETX, ROOM_SERIAL, Refusal, STX};

// The place after what was put, and the sum of address and data before doubling.
#[derive(Drop)]
pub(crate) struct Body {
    pub at: usize,
    pub sum: u8,
}

// Data put at a place, each 10h twice, and added to the sum that the address begins.
fn put_body(payload: &[u8], out: &mut [u8], from: usize, address: u8) -> Body
    requires { from + 2 * length payload.now ≤ length out.old }
    ensures { PutBody from address payload.now out.old result.at result.sum out.new }
{
    let mut at = from;
    let mut sum = address;
    for b in payload {
        at = buffer::put_doubled(out, at, *b);
        sum = checksum::add(sum, *b);
    }
    Body { at, sum }
}

// The frame of data of a good size, from the front of an output that has room for it.
fn put_frame(address: u8, payload: &[u8], out: &mut [u8]) -> usize
    requires { (length payload.now ≤ 256) × (520 ≤ length out.old) }
    ensures { Put 0 (frame address payload.now) out.old result out.new }
{
    let opened = buffer::put(out, 0, DLE);
    let started = buffer::put(out, opened, STX);
    let addressed = buffer::put_doubled(out, started, address);
    let body = put_body(payload, out, addressed, address);
    let summed = buffer::put_doubled(out, body.at, 255 - body.sum);
    let closing = buffer::put(out, summed, DLE);
    buffer::put(out, closing, ETX)
}

// Data framed for an address: 8, 4, 5 or the length of the frame.
pub fn write_frame(address: u8, payload: &[u8], out: &mut [u8]) -> Result<usize, Refusal>
    ensures { Emits (if_room room_serial (length out.old) (write_frame address payload.now)) out.old (number_told result) (length_told result) out.new }
{
    if out.len() < ROOM_SERIAL {
        return Err(Refusal::NoRoom);
    }
    size::check_size(payload.len())?;
    Ok(put_frame(address, payload, out))
}
