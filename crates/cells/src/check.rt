// The check: refused with 1 exactly where lent bytes stand for no sound tree, or others for no cells of it.
ghost use Rattle.std.specs.Prelude.{◌≡◌, length};
ghost use Rattle.cells.specs.Cells.{has_cells, cells_in};
ghost use Rattle.protocol.specs.Refusal.{number_told};
ghost use Rattle.cells.specs.Lent.{is_lent, lent_number};

use super::CELL_SIZE;
use protocol::Refusal;
use tree::record;

// Whether bytes are the form of cells: whole ones, each with a mark of 0 or 1.
pub fn has_cells(cells: &[u8]) -> bool
    ensures { result ≡ has_cells cells.now }
{
    cells.len() % CELL_SIZE == 0
        && (0..cells.len() / CELL_SIZE).all(|k| cells[k * CELL_SIZE + 4] <= 1)
}

// How many cells there are.
pub fn count(cells: &[u8]) -> usize
    ensures { result ≡ length (cells_in cells.now) }
{
    cells.len() / CELL_SIZE
}

// Whether bytes stand for a sound tree, and others for cells, one for each property.
#[tactic(auto, unfolding(crate::specs::Lent::is_lent))]
fn is_lent(tree: &[u8], cells: &[u8]) -> bool
    ensures { result ≡ is_lent tree.now cells.now }
{
    soundness::is_tree(tree) && has_cells(cells) && count(cells) == record::property_count(tree)
}

// Tree and cells are refused with 1, or not.
#[tactic(auto, unfolding(crate::specs::Lent::lent_number))]
pub fn check(tree: &[u8], cells: &[u8]) -> Result<(), Refusal>
    ensures { number_told result ≡ lent_number tree.now cells.now }
{
    if is_lent(tree, cells) {
        return Ok(());
    }
    Err(Refusal::Unsound)
}
