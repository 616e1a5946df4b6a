// What a write does.
ghost use Rattle.std.specs.Prelude.{◌≡◌};
ghost use Rattle.protocol.specs.Tree.{property_in};
ghost use Rattle.protocol.specs.Answer.{outcome, save_byte};
ghost use Rattle.tree.specs.Seen.{seen};
ghost use Rattle.tree.specs.Lookup.{numbers_of};
ghost use Rattle.reply.specs.Outcome.{meaning};

use protocol::{SAVE_DONE, SAVE_FAILED, SAVE_NONE};
use tree::record::Fields;
use tree::{range, record, step};

// The value is saved, the action is taken, or neither: the property has no write attribute, the value is out of range, or it is not
// on its step.
#[derive(Clone, Copy)]
pub enum Outcome {
    Saved,
    Taken,
    ReadOnly,
    OutOfRange,
    OffStep,
}

// The tests of a write in their order: no write attribute, then the range, then the step; an action has neither.
fn outcome_by(f: Fields, value: u32) -> Outcome
    ensures { meaning result ≡ outcome (numbers_of f) value }
{
    if !f.can_write() {
        return Outcome::ReadOnly;
    }
    if !f.can_read() {
        return Outcome::Taken;
    }
    if !range::in_range(f, value) {
        return Outcome::OutOfRange;
    }
    if !step::on_step(f, value) {
        return Outcome::OffStep;
    }
    Outcome::Saved
}

// What writing a value to the property at a place does.
pub fn outcome_of(tree: &[u8], place: usize, value: u32) -> Outcome
    ensures { meaning result ≡ outcome (property_in (seen tree.now) place) value }
{
    outcome_by(record::read_fields(tree, place), value)
}

#[tactic(auto, unfolding(protocol::specs::Answer::save_byte))]
pub(crate) fn save_byte(o: Outcome) -> u8
    ensures { result ≡ save_byte (meaning o) }
{
    match o {
        Outcome::Saved => SAVE_DONE,
        Outcome::Taken => SAVE_NONE,
        Outcome::ReadOnly | Outcome::OutOfRange | Outcome::OffStep => SAVE_FAILED,
    }
}
