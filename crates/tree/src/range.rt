// The range rule of document 01.
ghost use Rattle.std.specs.Prelude.{◌≡◌, ◌&&◌, eqb};
ghost use Rattle.protocol.specs.Answer.{in_range, takes_sign};
ghost use Rattle.tree.specs.Lookup.{numbers_of};

use super::record;
use super::record::Fields;
use protocol::STANDARD;

// Whether a property of type 1 takes any value: min and max are both 0.
fn takes_any(f: Fields) -> bool
    ensures { result ≡ (eqb f.min 0 && eqb f.max 0) }
{
    f.min == 0 && f.max == 0
}

// Whether a value lies in a property's range.
#[tactic(auto, unfolding(protocol::specs::Answer::in_range))]
pub fn in_range(f: Fields, value: u32) -> bool
    ensures { result ≡ in_range (numbers_of f) value }
{
    if f.kind != STANDARD {
        return value <= f.max;
    }
    let signed = f.is_signed();
    takes_any(f) || (record::at_most(signed, f.min, value) && record::at_most(signed, value, f.max))
}

// Whether a property's value is signed there.
#[tactic(auto, unfolding(protocol::specs::Answer::takes_sign))]
pub fn takes_sign(f: Fields) -> bool
    ensures { result ≡ takes_sign (numbers_of f) }
{
    f.kind == STANDARD && f.is_signed()
}
