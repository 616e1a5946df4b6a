// Numbers read from lent bytes. A byte past the end is 0.
ghost use Rattle.std.specs.Prelude.{◌≡◌, ◌+◌, ◌<◌, ◌^◌, get_or};
ghost use Rattle.tree.specs.Seen.{half_at, word_at};

pub fn byte_at(bs: &[u8], at: usize) -> u8
    ensures { result ≡ get_or bs.now at 0 }
{
    bs.get(at).copied().unwrap_or(0)
}

// A number of 16 bits at a place.
pub fn half_at(bs: &[u8], at: usize) -> u16
    ensures { result ≡ half_at at bs.now }
{
    if bs.len() <= at {
        return 0;
    }
    word::half_of(byte_at(bs, at), byte_at(bs, at + 1))
}

// A number of 32 bits at a place.
pub(crate) fn word_at(bs: &[u8], at: usize) -> u32
    requires { at + 3 < 2 ^ 64 }
    ensures { result ≡ word_at at bs.now }
{
    word::word_of(
        byte_at(bs, at),
        byte_at(bs, at + 1),
        byte_at(bs, at + 2),
        byte_at(bs, at + 3),
    )
}
