// A text of any length, written at the front of a lent buffer or not at all.
ghost use Rattle.std.specs.Prelude.{◌<◌, ◌≤◌, length};
ghost use Rattle.protocol.specs.Buffer.{farthest, Laid, Fills};
ghost use Rattle.text.specs.Unwritten.{whole, number_written, length_written};

use super::line::Value;
use super::output::Output;
use super::unwritten::Unwritten;

// The text at the front, as far as there is room, and its length.
fn put_front<V: Value>(value: V, out: &mut [u8]) -> usize
    ensures { Laid 0 (V.shown value) out.old result out.new }
{
    let mut output = Output::new(out, 0);
    value.put(&mut output);
    output.at
}

// A text of at most so many bytes, put at the front: 8 where the room is shorter than the text, with the length that is needed.
// The length is counted first, where the room may be too short. Of a longer text nothing is promised but that the call ends.
pub fn fill<V: Value + Copy>(value: V, most: usize, out: &mut [u8]) -> Result<usize, Unwritten>
    ensures { (length (V.shown value) ≤ most) × (most < farthest) → Fills (whole (V.shown value)) out.old (number_written result) (length_written result) out.new }
{
    if out.len() < most {
        let size = put_front(value, &mut out[..0]);
        if out.len() < size {
            return Err(Unwritten::NoRoom(size));
        }
    }
    Ok(put_front(value, out))
}
