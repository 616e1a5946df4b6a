// Requests read and written out. The kinds:
//
//     20  a serial string read  address; string
//     21  the same
//     22  a datagram read       string: the datagram
//     23  the same
//     24  a serial string       address, mark: its op, index, value; string: its path
//     25  a datagram            mark: its op, index, value; string: its path
//
// A request that was read takes two lines. In 20 and 22 the bytes are the 16 of the path; in 21 and 23 the number is the op, and
// the bytes are the path's length, the index and the value. Of one that is refused all these are 0.
use super::{Answer, Numbers, told};
use frame::buffer;
use protocol::{PropertyIndex, Refusal};
use request::{Request, read};

fn path_of(read: Result<Request, Refusal>, out: &mut [u8]) -> Answer {
    let path = match read {
        Ok(request) => request.path.numbers,
        Err(_) => [0; 16],
    };
    Answer::of(read.err(), buffer::put_all(&path, out, 0))
}

fn fields_of(read: Result<Request, Refusal>, out: &mut [u8]) -> Answer {
    let Ok(request) = read else {
        return Answer {
            number: 0,
            len: buffer::put_all(&[0; 6], out, 0),
        };
    };
    let at = buffer::put_all(&[request.path.len as u8, request.index.0], out, 0);
    Answer {
        number: u8::from(request.op),
        len: bus_calls::put_word(request.value, out, at),
    }
}

pub(crate) fn run(n: Numbers, string: &[u8], out: &mut [u8]) -> Option<Answer> {
    let index = PropertyIndex(n.index);
    let answer = match n.kind {
        0x20 => path_of(read::read_serial(n.address, string), out),
        0x21 => fields_of(read::read_serial(n.address, string), out),
        0x22 => path_of(read::read_udp(string), out),
        0x23 => fields_of(read::read_udp(string), out),
        0x24 => told(compose::write_serial(n.address, n.mark, string, index, n.value, out)),
        0x25 => told(compose::write_udp(n.mark, string, index, n.value, out)),
        _ => return None,
    };
    Some(answer)
}
