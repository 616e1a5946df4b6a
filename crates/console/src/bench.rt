// The bench: the stream reader and the bench tree, address 0, host functions on.
ghost use Rattle.std.specs.Prelude.{◌≡◌, ◌≤◌, length};
ghost use Rattle.answer.specs.Reply.{outcome_number};
ghost use Rattle.console.specs.Bench.{served, stepped, Steps};
ghost use Rattle.console.specs.Steps.{ServesLines};

use super::lines;
use answer::Failure;
use protocol::{DONE, Refusal};

// The room that the lines of a frame need.
pub const TEXT_ROOM: usize = 1058;

// The box's address.
pub const ADDRESS: u8 = 0;

// The number of a reply.
fn number_of(outcome: Result<Option<u8>, Failure>) -> u8
    ensures { result ≡ outcome_number outcome }
{
    match outcome {
        Ok(_) => DONE,
        Err(failure) => u8::from(Refusal::from(failure)),
    }
}

// A good frame's data served, and its two lines put at the front of the text.
fn serve_lines(cells: &mut [u8], request: &[u8], out: &mut [u8]) -> usize
    requires { 1058 ≤ length out.old }
    ensures { ServesLines (served request.now cells.old) out.old result cells.new out.new }
{
    let tree = tree::bench::tree();
    let mut reply = [0u8; 256];
    match answer::serve::serve_data(&tree, cells, true, request, &mut reply) {
        Ok(told) => {
            let mut wire = [0u8; 520];
            let framed = frame::write::write_frame(ADDRESS, &reply[..told.len], &mut wire);
            let size = framed.unwrap_or(0);
            lines::put_lines(number_of(told.outcome), &wire[..size], out)
        }
        Err(refusal) => lines::put_lines(u8::from(refusal), &[], out),
    }
}

// What a step returns: how many bytes it took, and the length of the lines that it put at the front of the text.
#[derive(Drop)]
pub struct Shown {
    pub taken: usize,
    pub len: usize,
}

// Bytes of the stream, up to the one that closes or drops a frame, and the lines of that frame. Where the text has no room for
// two lines it takes nothing.
pub fn step(state: &mut [u8], cells: &mut [u8], bytes: &[u8], out: &mut [u8]) -> Shown
    ensures { Steps (stepped (length out.old) state.old cells.old bytes.now) out.old result.taken result.len state.new cells.new out.new }
{
    if out.len() < TEXT_ROOM {
        return Shown { taken: 0, len: 0 };
    }
    let mut payload = [0u8; 256];
    let fed = stream::feed::feed(state, ADDRESS, bytes, &mut payload);
    let taken = fed.taken;
    match fed.frame {
        Ok(None) => Shown { taken, len: 0 },
        Ok(Some(size)) => {
            let len = serve_lines(cells, &payload[..size], out);
            Shown { taken, len }
        }
        Err(refusal) => {
            let len = lines::put_lines(u8::from(refusal), &[], out);
            Shown { taken, len }
        }
    }
}
