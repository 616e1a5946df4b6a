// How many bytes data may have.
ghost use Rattle.std.specs.Prelude.{◌≡◌};
ghost use Rattle.protocol.specs.Frame.{size_number};
ghost use Rattle.protocol.specs.Refusal.{number_told};

use protocol::{MAX_DATA, Refusal};

// 4 for data of no bytes, 5 for more than 256.
#[tactic(auto, unfolding(protocol::specs::Frame::size_number))]
pub fn check_size(n: usize) -> Result<(), Refusal>
    ensures { number_told result ≡ size_number n }
{
    if n == 0 {
        return Err(Refusal::TooShort);
    }
    if MAX_DATA < n {
        return Err(Refusal::TooLong);
    }
    Ok(())
}
