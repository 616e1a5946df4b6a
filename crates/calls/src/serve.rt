// Serving calls, over a tree and the cells that are lent. The kinds:
//
//     30  request data     mark: 1 with host functions on; string: the data
//     31  a serial string  address, mark: the same; string
//     32  a datagram       mark: the same; string: the datagram
//     33  request data     as 30
//     34  a serial string  as 31
//     35  a datagram       as 32
//
// In 30 to 32 the bytes are the reply; in 33 to 35 they are the place of the property whose action is to be taken, and the length of
// the part of the path that no node has.
use super::{Answer, Numbers};
use answer::{Failure, Reply, serve};
use frame::buffer;
use protocol::{NO_ACTION, Refusal};

fn reply_of(served: Result<Reply, Refusal>) -> Answer {
    match served {
        Ok(reply) => Answer::of(reply.outcome.err().map(Refusal::from), reply.len),
        Err(refusal) => Answer::of(Some(refusal), 0),
    }
}

fn told_of(served: Result<Reply, Refusal>, out: &mut [u8]) -> Answer {
    let outcome = match served {
        Ok(reply) => reply.outcome,
        Err(refusal) => Err(Failure::Refused(refusal)),
    };
    let (action, missing) = match outcome {
        Ok(Some(place)) => (place, 0),
        Err(Failure::NoNode(len)) => (NO_ACTION, len),
        _ => (NO_ACTION, 0),
    };
    Answer::of(
        outcome.err().map(Refusal::from),
        buffer::put_all(&[action, missing], out, 0),
    )
}

pub(crate) fn run(
    n: Numbers,
    string: &[u8],
    tree: &[u8],
    cells: &mut [u8],
    out: &mut [u8],
) -> Option<Answer> {
    let host = n.mark == 1;
    let served = match n.kind {
        0x30 | 0x33 => serve::serve_data(tree, cells, host, string, out),
        0x31 | 0x34 => serve::serve_serial(tree, cells, host, n.address, string, out),
        0x32 | 0x35 => serve::serve_udp(tree, cells, host, string, out),
        _ => return None,
    };
    if n.kind < 0x33 {
        return Some(reply_of(served));
    }
    Some(told_of(served, out))
}
