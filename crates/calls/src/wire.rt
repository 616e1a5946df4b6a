// Frames, datagrams and the stream. The kinds:
//
//     10  a frame written     address; string: its data
//     11  a frame read        address; string: the frame
//     12  a datagram checked  string: the datagram
//     13  a datagram written  string: its data
//     14  a delivery          address; string: the bytes; lent: the state of the stream reader
use super::{Answer, Numbers, told};
use frame::{buffer, read, write};
use protocol::NO_FRAME;
use stream::feed;

fn checked(d: &[u8], out: &mut [u8]) -> Answer {
    Answer::of(
        datagram::payload_of(d).err(),
        buffer::put_all(datagram::data_of(d), out, 0),
    )
}

fn deliver(state: &mut [u8], address: u8, bytes: &[u8], out: &mut [u8]) -> Answer {
    match feed::feed(state, address, bytes, out).frame {
        Ok(Some(len)) => Answer::of(None, len),
        Ok(None) => Answer {
            number: NO_FRAME,
            len: 0,
        },
        Err(refusal) => Answer::of(Some(refusal), 0),
    }
}

pub(crate) fn run(n: Numbers, string: &[u8], lent: &mut [u8], out: &mut [u8]) -> Option<Answer> {
    let answer = match n.kind {
        0x10 => told(write::write_frame(n.address, string, out)),
        0x11 => told(read::read_frame(n.address, string, out)),
        0x12 => checked(string, out),
        0x13 => told(datagram::write_datagram(string, out)),
        0x14 => deliver(lent, n.address, string, out),
        _ => return None,
    };
    Some(answer)
}
