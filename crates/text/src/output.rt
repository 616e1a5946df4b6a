// A lent buffer that text is put into, one behind the other.
ghost use Rattle.std.specs.Prelude.{◌<◌, ◌≤◌, length};
ghost use Rattle.protocol.specs.Buffer.{farthest};

use frame::buffer;

// No buffer is longer.
const FARTHEST: usize = 9223372036854775808;

// The buffer, and the place behind all that had to be put so far, whether there was room for it or not.
#[derive(Drop)]
pub struct Output<'a> {
    pub bytes: &'a mut [u8],
    pub at: usize,
    ghost place: { at ≤ farthest },
    ghost short: { length bytes.now < farthest },
}

impl<'a> Output<'a> {
    ghost use Rattle.std.specs.Prelude.{◌≡◌, min};
    ghost use Rattle.text.specs.Lays.{Lays};

    // From any place of a buffer on. A place beyond all is taken for the last.
    pub fn new(bytes: &'a mut [u8], at: usize) -> Output<'a>
        ensures place { result.at ≡ min farthest at }
        ensures bytes { result.bytes.now ≡ bytes.old }
        ensures same { result.bytes.ghost_name ≡ bytes.entry.ghost_name }
    {
        Output {
            bytes,
            at: FARTHEST.min(at),
        }
    }

    // Bytes as they are.
    pub fn put_all(&mut self, bs: &[u8])
        ensures { Lays bs.now self.old self.new }
    {
        buffer::put_all(bs, self.bytes, self.at);
        self.at = FARTHEST.min(self.at.saturating_add(bs.len()));
    }
}
