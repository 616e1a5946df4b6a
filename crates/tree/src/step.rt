// The steps of document 02, section 6.
ghost use Rattle.std.specs.Prelude.{◌≡◌};
ghost use Rattle.protocol.specs.Step.{step_of, distance, on_step};
ghost use Rattle.tree.specs.Lookup.{numbers_of};

use super::record;
use super::record::Fields;
use protocol::STANDARD;

// The step of each code.
const STEPS: [u16; 12] = [1, 2, 5, 10, 20, 50, 100, 200, 500, 1000, 2000, 5000];

// The step of a code; 1 for one that means none, which no sound tree has where a step counts.
#[tactic(auto, unfolding(protocol::specs::Step::step_of, protocol::specs::Step::steps))]
fn step_of(code: u16) -> u16
    ensures { result ≡ step_of code }
{
    STEPS.get(usize::from(code)).copied().unwrap_or(1)
}

// How far two words are apart, as integers that are signed or not. The words as they are compared are as far apart.
fn distance_of(signed: bool, m: u32, n: u32) -> u32
    ensures { result ≡ distance signed m n }
{
    record::ordered_word(signed, m).abs_diff(record::ordered_word(signed, n))
}

// Whether a value is on a property's step: its distance from min is a multiple. (Where min and max are both 0, so is what the
// distance is taken from.) With step 1, and of type 2, every value is, and nothing is divided.
pub fn on_step(f: Fields, value: u32) -> bool
    ensures { result ≡ on_step (numbers_of f) value }
{
    let code = f.step_code();
    if code == 0 || f.kind != STANDARD {
        return true;
    }
    distance_of(f.is_signed(), f.min, value) % u32::from(step_of(code)) == 0
}
