// Texts in lent bytes, each ended by a zero, copied.
ghost use Rattle.std.specs.Prelude.{◌≡◌, ◌+◌, ◌-◌, ◌≤◌, min, drop};
ghost use Rattle.protocol.specs.Bytes.{texts};
ghost use Rattle.protocol.specs.Buffer.{Put, fitting};
ghost use Rattle.tree.specs.Seen.{texts_from};

use super::bytes;

// Some texts that begin at a place, each with its zero, put at a place of an output, as far as there is room.
pub(crate) fn put_texts(tree: &[u8], from: usize, count: usize, out: &mut [u8], at: usize) -> usize
    ensures { Put at (fitting at (texts (texts_from count (drop from tree.now))) out.old) out.old result out.new }
{
    let mut left = count;
    let mut i = from;
    for next in at..out.len() {
        if left == 0 {
            return next;
        }
        let b = bytes::byte_at(tree, i);
        out[next] = b;
        i += usize::from(i < tree.len());
        left -= usize::from(b == 0);
    }
    at.max(out.len())
}
