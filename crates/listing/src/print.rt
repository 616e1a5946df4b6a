// What the program `list` prints for its input: the listing of a tree, or the line that refuses it.
ghost use Rattle.std.specs.Prelude.{length};
ghost use Rattle.protocol.specs.Buffer.{Laid};
ghost use Rattle.protocol.specs.Text.{decimal, line, answer_key};
ghost use Rattle.listing.specs.Print.{printed, Prints};

use super::LISTING_ROOM;
use text::output::Output;

// One byte more than the longest lent form has: so much of the input tells what it is.
pub const INPUT_ROOM: usize = 27331;

// The line that tells a number, at the front of an output.
fn put_answer(number: u8, out: &mut [u8]) -> usize
    ensures { Laid 0 (line answer_key (decimal number)) out.old result out.new }
{
    let mut output = Output::new(out, 0);
    output.put_line(b"answer", u32::from(number));
    output.at
}

// The text, put at the front of an output, and its length. With less than LISTING_ROOM nothing is put.
pub fn print(input: &[u8], out: &mut [u8]) -> usize
    ensures { Prints (printed (length out.old) input.now) out.old result out.new }
{
    if out.len() < LISTING_ROOM {
        return 0;
    }
    match super::list(input, out) {
        Ok(size) => size,
        Err(unwritten) => put_answer(u8::from(unwritten), out),
    }
}
