// Serving calls.
ghost use Rattle.std.specs.Prelude.{◌≡◌, cond, ◌&&◌, length, ltb};
ghost use Rattle.protocol.specs.Numbers.{done, unsound, no_room};
ghost use Rattle.protocol.specs.Refusal.{refusal_number, number_told};
ghost use Rattle.cells.specs.Lent.{is_lent};
ghost use Rattle.answer.specs.Reply.{served_number, served_length, served_action, served_missing};
ghost use Rattle.answer.specs.Serve.{serve_data, serve_serial, serve_udp, Serves};
ghost use Rattle.answer.specs.Steps.{Hears};

use super::{Reply, answer};
use cells::check;
use protocol::{ROOM_DATA, ROOM_SERIAL, ROOM_UDP, Refusal};
use request::{Request, read};

// Rows 1 and 8, or 0.
fn check_lent(tree: &[u8], cells: &[u8], room: usize, least: usize) -> Result<(), Refusal>
    ensures { number_told result ≡ cond (is_lent tree.now cells.now) (cond (ltb room least) no_room done) unsound }
{
    check::check(tree, cells)?;
    if room < least {
        return Err(Refusal::NoRoom);
    }
    Ok(())
}

// Whether a refusal that reading gave is one of rows 2 to 7.
fn is_of_string(refusal: Refusal) -> bool
    ensures { result ≡ (ltb 0 (refusal_number refusal) && ltb (refusal_number refusal) 9) }
{
    u8::from(refusal) < u8::from(Refusal::Disabled)
}

// A string or datagram that was read is for the box to answer, unless it is refused by rows 2 to 7.
fn check_string(asked: &Result<Request, Refusal>) -> Result<(), Refusal>
    ensures { Hears asked.now result }
{
    match asked {
        Err(refusal) if is_of_string(*refusal) => Err(*refusal),
        _ => Ok(()),
    }
}

// Request data served: 1, 8, 4, 5, 9, 10, 11, 15, 16, 12, 13 or 0.
pub fn serve_data(
    tree: &[u8],
    cells: &mut [u8],
    host: bool,
    request: &[u8],
    out: &mut [u8],
) -> Result<Reply, Refusal>
    ensures { Serves (serve_data (length out.old) request.now host tree.now cells.old) out.old (served_number result) (served_length result) (served_action result) (served_missing result) cells.new out.new }
{
    check_lent(tree, cells, out.len(), ROOM_DATA)?;
    frame::size::check_size(request.len())?;
    let asked = read::read_data(request);
    Ok(answer::answer(tree, cells, host, &asked, out))
}

// A serial string served for the box's address, which its reply carries: 1, 8, 2, 3, 4, 5, 6, 7, 9, 10, 11, 15, 16, 12, 13 or 0.
pub fn serve_serial(
    tree: &[u8],
    cells: &mut [u8],
    host: bool,
    address: u8,
    s: &[u8],
    out: &mut [u8],
) -> Result<Reply, Refusal>
    ensures { Serves (serve_serial address (length out.old) s.now host tree.now cells.old) out.old (served_number result) (served_length result) (served_action result) (served_missing result) cells.new out.new }
{
    check_lent(tree, cells, out.len(), ROOM_SERIAL)?;
    let asked = read::read_serial(address, s);
    check_string(&asked)?;
    let mut payload = [0u8; 256];
    let reply = answer::answer(tree, cells, host, &asked, &mut payload);
    let len = frame::write::write_frame(address, &payload[..reply.len], out)?;
    Ok(Reply {
        len,
        outcome: reply.outcome,
    })
}

// A datagram served, the reply built behind its four zero bytes: 1, 8, 2, 4, 5, 9, 10, 11, 15, 16, 12, 13 or 0.
pub fn serve_udp(
    tree: &[u8],
    cells: &mut [u8],
    host: bool,
    datagram: &[u8],
    out: &mut [u8],
) -> Result<Reply, Refusal>
    ensures { Serves (serve_udp (length out.old) datagram.now host tree.now cells.old) out.old (served_number result) (served_length result) (served_action result) (served_missing result) cells.new out.new }
{
    check_lent(tree, cells, out.len(), ROOM_UDP)?;
    let asked = read::read_udp(datagram);
    check_string(&asked)?;
    let reply = answer::answer(tree, cells, host, &asked, &mut out[4..]);
    let front = frame::buffer::put_all(b"\0\0\0\0", out, 0);
    Ok(Reply {
        len: front + reply.len,
        outcome: reply.outcome,
    })
}
