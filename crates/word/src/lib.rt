// Numbers made of bytes, the high byte first, and their bytes; a word as a signed integer; and where a text ends.
#![tactic(auto)]

ghost use Rattle.std.specs.Prelude.{◌≡◌, true, [], ◌∷◌, ◌==◌, position};
ghost use Rattle.protocol.specs.Bytes.{number, half, word};
ghost use Rattle.protocol.specs.Request.{before_zero};
ghost use Rattle.protocol.specs.Signed.{number_of, integer_of};

// A number of 16 bits.
#[tactic(auto, unfolding(protocol::specs::Bytes::number_after))]
pub fn half_of(high: u8, low: u8) -> u16
    ensures { result ≡ number (high ∷ low ∷ []) }
{
    u16::from_be_bytes([high, low])
}

// A number of 32 bits.
#[tactic(auto, unfolding(protocol::specs::Bytes::number_after))]
pub fn word_of(first: u8, second: u8, third: u8, last: u8) -> u32
    ensures { result ≡ number (first ∷ second ∷ third ∷ last ∷ []) }
{
    u32::from_be_bytes([first, second, third, last])
}

// The bytes of a number of 16 bits.
#[tactic(auto, unfolding(protocol::specs::Bytes::half))]
pub fn half_bytes_of(n: u16) -> [u8; 2]
    ensures { result ≡ half n }
{
    n.to_be_bytes()
}

// The bytes of a number of 32 bits.
#[tactic(auto, unfolding(protocol::specs::Bytes::word))]
pub fn bytes_of(w: u32) -> [u8; 4]
    ensures { result ≡ word w }
{
    w.to_be_bytes()
}

// A word as a signed integer.
pub fn signed(w: u32) -> i32
    ensures { result ≡ integer_of (number_of true w) }
{
    w.cast_signed()
}

// Where the first zero stands.
fn first_zero(bs: &[u8]) -> Option<usize>
    ensures { result ≡ position (λ b. b == 0) bs.now }
{
    bs.iter().position(|b| *b == 0)
}

// How many bytes stand before the first zero.
pub fn before_zero(bs: &[u8]) -> usize
    ensures { result ≡ before_zero bs.now }
{
    first_zero(bs).unwrap_or(bs.len())
}
