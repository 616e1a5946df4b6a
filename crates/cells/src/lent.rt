// A tree and cells that passed the check.
ghost use Rattle.std.specs.Prelude.{◌≡◌, true, IfOk};
ghost use Rattle.protocol.specs.Refusal.{number_told};
ghost use Rattle.cells.specs.Lent.{is_lent, lent_number};

use super::check;
use protocol::Refusal;

// Bytes that stand for a sound tree, and others for cells, one for each property.
#[derive(Clone, Copy)]
pub struct Lent<'a> {
    pub tree: &'a [u8],
    pub cells: &'a [u8],
    ghost lent: { is_lent tree.now cells.now ≡ true },
}

// Tree and cells are refused with 1, or lent.
pub fn lend<'a>(tree: &'a [u8], cells: &'a [u8]) -> Result<Lent<'a>, Refusal>
    ensures number { number_told result ≡ lent_number tree.now cells.now }
    ensures same { IfOk result (λ lent. (lent.tree.now ≡ tree.now) × (lent.cells.now ≡ cells.now)) }
{
    check::check(tree, cells)?;
    Ok(Lent { tree, cells })
}
