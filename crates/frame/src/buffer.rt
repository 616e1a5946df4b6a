// Bytes put into a lent buffer.
ghost use Rattle.std.specs.Prelude.{◌+◌, ◌<◌, ◌≤◌, [], ◌∷◌, length};
ghost use Rattle.protocol.specs.Frame.{doubled};
ghost use Rattle.protocol.specs.Buffer.{fitting, Put};

use protocol::DLE;

// One byte at a place. Returns the next place.
pub(crate) fn put(out: &mut [u8], at: usize, b: u8) -> usize
    requires { at < length out.old }
    ensures { Put at (b ∷ []) out.old result out.new }
{
    out[at] = b;
    at + 1
}

// One byte at a place, twice where it is 10h.
pub(crate) fn put_doubled(out: &mut [u8], at: usize, b: u8) -> usize
    requires { at + 2 ≤ length out.old }
    ensures { Put at (doubled b) out.old result out.new }
{
    let next = put(out, at, b);
    if b == DLE {
        return put(out, next, b);
    }
    next
}

// Bytes put at a place of an output, as far as there is room. Returns the next place.
pub fn put_all(bs: &[u8], out: &mut [u8], at: usize) -> usize
    ensures { Put at (fitting at bs.now out.old) out.old result out.new }
{
    let mut next = at;
    for b in bs {
        if out.len() <= next {
            return next;
        }
        next = put(out, next, *b);
    }
    next
}
