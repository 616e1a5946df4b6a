// The lines of a frame, put into a lent buffer.
ghost use Rattle.protocol.specs.Buffer.{Laid};
ghost use Rattle.text.specs.Lays.{Lays};
ghost use Rattle.console.specs.Lines.{lines};

use text::line::Hex;
use text::output::Output;

// The two lines of a frame: its number, and the serial reply in hex.
fn put_both(number: u8, reply: &[u8], output: &mut Output)
    ensures { Lays (lines number reply.now) output.old output.new }
{
    output.put_line(b"answer", u32::from(number));
    output.put_line(b"reply", Hex(reply));
}

// The same at the front of a buffer.
pub(crate) fn put_lines(number: u8, reply: &[u8], out: &mut [u8]) -> usize
    ensures { Laid 0 (lines number reply.now) out.old result out.new }
{
    let mut output = Output::new(out, 0);
    put_both(number, reply, &mut output);
    output.at
}
