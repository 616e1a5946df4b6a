// Requests, read.
ghost use Rattle.std.specs.Prelude.{◌≡◌, ◌<◌, ◌≤◌, length};
ghost use Rattle.protocol.specs.Numbers.{op_node};
ghost use Rattle.protocol.specs.KeptPath.{PathIs};
ghost use Rattle.protocol.specs.Refusal.{op_number};
ghost use Rattle.protocol.specs.Request.{request_of, asked_if, read_indexed, read_valued, read_shape, read_request, read_serial, read_udp};
ghost use Rattle.request.specs.Asked.{padded, AskedIs};

use super::Request;
use frame::buffer;
use protocol::path::Path;
use protocol::{Op, PDI, PropertyIndex, Refusal};

// Bytes as a path, with zeros behind them. They are put one by one: most are few, and were stored just before.
fn path_of(bytes: &[u8]) -> Path
    requires { length bytes.now ≤ 16 }
    ensures path { PathIs bytes.now (length bytes.now) result }
    ensures zeros { result.numbers ≡ padded bytes.now }
{
    let mut numbers = [0u8; 16];
    let len = buffer::put_all(bytes, &mut numbers, 0);
    Path { numbers, len }
}

// A request if it fits; else 11.
fn judge(op: Op, path: &[u8], index: PropertyIndex, value: u32) -> Result<Request, Refusal>
    ensures { AskedIs (asked_if (request_of (op_number op) path.now index.0 value)) result }
{
    if !table::all_fit(u8::from(op), path, index, value) {
        return Err(Refusal::BadParameter);
    }
    Ok(Request {
        op,
        path: path_of(path),
        index,
        value,
    })
}

// Path and index, the index last, with a value beside them.
fn read_indexed(op: Op, value: u32, bs: &[u8]) -> Result<Request, Refusal>
    requires { op_node < op_number op }
    ensures { AskedIs (read_indexed (op_number op) value bs.now) result }
{
    let [path @ .., index] = bs else {
        return Err(Refusal::BadParameter);
    };
    judge(op, path, PropertyIndex(*index), value)
}

// Ops 4 and 5: the first zero ends path and index, and four bytes follow it.
fn read_valued(op: Op, bs: &[u8]) -> Result<Request, Refusal>
    requires { op_node < op_number op }
    ensures { AskedIs (read_valued (op_number op) bs.now) result }
{
    let end = word::before_zero(bs);
    let rest = &bs[end..];
    let [_, first, second, third, last] = rest else {
        return Err(Refusal::BadParameter);
    };
    let value = word::word_of(*first, *second, *third, *last);
    read_indexed(op, value, &bs[..end])
}

// The bytes after B4 and the op.
#[tactic(auto, unfolding(protocol::specs::Request::read_shape))]
fn read_shape(op: Op, bs: &[u8]) -> Result<Request, Refusal>
    ensures { AskedIs (read_shape (op_number op) bs.now) result }
{
    match op {
        Op::Detect | Op::Node => judge(op, bs, PropertyIndex(0), 0),
        Op::Record | Op::Read => read_indexed(op, 0, bs),
        Op::Write | Op::WriteExtended => read_valued(op, bs),
    }
}

// Data read as a request: 10, 11 or 0.
pub fn read_data(d: &[u8]) -> Result<Request, Refusal>
    ensures { AskedIs (read_request d.now) result }
{
    match d {
        [PDI, op, bs @ ..] => read_shape(Op::try_from(*op)?, bs),
        [] | [PDI] => Err(Refusal::BadParameter),
        _ => Err(Refusal::UnknownCommand),
    }
}

// A serial string read as a request for an address: 2, 3, 4, 5, 6, 7, 10, 11 or 0.
pub fn read_serial(address: u8, s: &[u8]) -> Result<Request, Refusal>
    ensures { AskedIs (read_serial address s.now) result }
{
    // One byte more than the longest request has.
    let mut front = [0u8; 25];
    let len = frame::read::read_front(address, s, &mut front)?;
    read_data(&front[..len])
}

// A datagram read as a request: 2, 4, 5, 10, 11 or 0.
pub fn read_udp(d: &[u8]) -> Result<Request, Refusal>
    ensures { AskedIs (read_udp d.now) result }
{
    read_data(datagram::payload_of(d)?)
}
