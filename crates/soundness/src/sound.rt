// Bytes that passed the check.
ghost use Rattle.std.specs.Prelude.{◌≡◌, true, cond, IfOk};
ghost use Rattle.protocol.specs.Numbers.{done, unsound};
ghost use Rattle.protocol.specs.Refusal.{number_told};
ghost use Rattle.soundness.specs.Sound.{is_tree};

use super::is_tree;
use protocol::Refusal;

// Bytes that stand for a sound tree.
#[derive(Clone, Copy)]
pub struct SoundTree<'a> {
    pub bytes: &'a [u8],
    ghost sound: { is_tree bytes.now ≡ true },
}

// Bytes are refused with 1, or stand for a sound tree.
pub fn check(tree: &[u8]) -> Result<SoundTree, Refusal>
    ensures number { number_told result ≡ cond (is_tree tree.now) done unsound }
    ensures same { IfOk result (λ sound. sound.bytes.now ≡ tree.now) }
{
    if is_tree(tree) {
        return Ok(SoundTree { bytes: tree });
    }
    Err(Refusal::Unsound)
}
