// PDI requests, written out: their data, and frames and datagrams of it.
#![tactic(auto)]

ghost use Rattle.std.specs.Prelude.{◌≡◌, ◌∷◌, ◌≤◌, length};
ghost use Rattle.protocol.specs.Numbers.{room_serial, room_udp};
ghost use Rattle.protocol.specs.Bytes.{word};
ghost use Rattle.protocol.specs.Buffer.{fitting, Put, Emits};
ghost use Rattle.protocol.specs.Refusal.{number_told, length_told};
ghost use Rattle.protocol.specs.Request.{request_of, allowance, data_of, serial_form, udp_form};
ghost use Rattle.compose.specs.Write.{write_request};

use frame::buffer;
use protocol::{OP_NODE, OP_READ, Op, PDI, PropertyIndex, ROOM_SERIAL, ROOM_UDP, Refusal};

// An index, and a value behind a zero, the high byte first.
fn tail_of(index: PropertyIndex, value: u32) -> [u8; 6]
    ensures { result ≡ index.0 ∷ 0 ∷ word value }
{
    let [first, second, third, last] = word::bytes_of(value);
    [index.0, 0, first, second, third, last]
}

// The data of a request, from the front of an output, as far as there is room.
pub fn put_data(op: u8, path: &[u8], index: PropertyIndex, value: u32, out: &mut [u8]) -> usize
    ensures { Put 0 (fitting 0 (data_of (request_of op path.now index.0 value)) out.old) out.old result out.new }
{
    let named = buffer::put_all(&[PDI, op], out, 0);
    let addressed = buffer::put_all(path, out, named);
    if op <= OP_NODE {
        return addressed;
    }
    let tail = tail_of(index, value);
    if op <= OP_READ {
        return buffer::put_all(&tail[..1], out, addressed);
    }
    buffer::put_all(&tail, out, addressed)
}

// What a request is answered with when it is written out: 10, 11 or 0.
fn check_request(op: u8, path: &[u8], index: PropertyIndex, value: u32) -> Result<(), Refusal>
    ensures { number_told result ≡ allowance (request_of op path.now index.0 value) }
{
    Op::try_from(op)?;
    if !table::all_fit(op, path, index, value) {
        return Err(Refusal::BadParameter);
    }
    Ok(())
}

// The data of a request for an output of some room: 8 where any request may need more, 10, 11, or the data at the front.
fn data_for(
    least: usize,
    room: usize,
    op: u8,
    path: &[u8],
    index: PropertyIndex,
    value: u32,
    payload: &mut [u8],
) -> Result<usize, Refusal>
    requires { 24 ≤ length payload.old }
    ensures { Emits (write_request least room data_of (request_of op path.now index.0 value)) payload.old (number_told result) (length_told result) payload.new }
{
    if room < least {
        return Err(Refusal::NoRoom);
    }
    check_request(op, path, index, value)?;
    Ok(put_data(op, path, index, value, payload))
}

// A request written out in a frame for an address: 8, 10, 11 or 0.
pub fn write_serial(
    address: u8,
    op: u8,
    path: &[u8],
    index: PropertyIndex,
    value: u32,
    out: &mut [u8],
) -> Result<usize, Refusal>
    ensures { Emits (write_request room_serial (length out.old) (serial_form address) (request_of op path.now index.0 value)) out.old (number_told result) (length_told result) out.new }
{
    let mut payload = [0u8; 24];
    let len = data_for(ROOM_SERIAL, out.len(), op, path, index, value, &mut payload)?;
    frame::write::write_frame(address, &payload[..len], out)
}

// A request written out in a datagram: 8, 10, 11 or 0.
pub fn write_udp(
    op: u8,
    path: &[u8],
    index: PropertyIndex,
    value: u32,
    out: &mut [u8],
) -> Result<usize, Refusal>
    ensures { Emits (write_request room_udp (length out.old) udp_form (request_of op path.now index.0 value)) out.old (number_told result) (length_told result) out.new }
{
    let mut payload = [0u8; 24];
    let len = data_for(ROOM_UDP, out.len(), op, path, index, value, &mut payload)?;
    datagram::write_datagram(&payload[..len], out)
}
