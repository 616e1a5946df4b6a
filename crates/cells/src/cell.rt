// A cell: its reading, and a word or a mark stored.
ghost use Rattle.std.specs.Prelude.{◌≡◌, ◌*◌, ◌/◌, ◌<◌, ◌≤◌, length, MatchOption};
ghost use Rattle.protocol.specs.Tree.{property_in, cell_in, readable, reading};
ghost use Rattle.tree.specs.Seen.{seen};
ghost use Rattle.cells.specs.Cells.{cell_size, cells_in, with_word, with_mark};
ghost use Rattle.protocol.specs.Refusal.{option_of};

use super::CELL_SIZE;
use tree::record;

// Where the cell at a place begins; nothing where there is none.
fn cell_place(cells: &[u8], place: usize) -> Option<usize>
    ensures { MatchOption result (length cells.now / cell_size ≤ place) (λ at. (place < length cells.now / cell_size) × (at ≡ place * cell_size)) }
{
    if place < cells.len() / CELL_SIZE {
        return Some(place * CELL_SIZE);
    }
    None
}

// The word of the cell at a place; 0 where there is none. Whether it is a reading is `reading`'s to say.
fn read_word(cells: &[u8], place: usize) -> u32
    ensures { result ≡ (cell_in (cells_in cells.now) place).word }
{
    let Some(at) = cell_place(cells, place) else {
        return 0;
    };
    word::word_of(cells[at], cells[at + 1], cells[at + 2], cells[at + 3])
}

// Whether the cell at a place is marked ready.
fn is_ready(cells: &[u8], place: usize) -> bool
    ensures { result ≡ (cell_in (cells_in cells.now) place).ready }
{
    let Some(at) = cell_place(cells, place) else {
        return false;
    };
    cells[at + 4] == 1
}

// Row 12: whether the property at a place has a number to read.
#[tactic(auto, unfolding(protocol::specs::Tree::readable))]
fn is_readable(tree: &[u8], cells: &[u8], place: usize) -> bool
    ensures { result ≡ readable (property_in (seen tree.now) place) (cell_in (cells_in cells.now) place) }
{
    let f = record::read_fields(tree, place);
    f.can_read() && (!f.is_live() || is_ready(cells, place))
}

// The number that the property at a place has to read, or none: the one way to a stored word.
pub fn reading(tree: &[u8], cells: &[u8], place: usize) -> Option<u32>
    ensures { result ≡ option_of (reading (property_in (seen tree.now) place) (cell_in (cells_in cells.now) place)) }
{
    if is_readable(tree, cells, place) {
        return Some(read_word(cells, place));
    }
    None
}

// A word stored in the cell at a place; nothing where there is none.
pub fn store_word(cells: &mut [u8], place: usize, n: u32)
    ensures { cells.new ≡ with_word place n cells.old }
{
    let Some(at) = cell_place(cells, place) else {
        return;
    };
    cells[at..at + 4].copy_from_slice(&word::bytes_of(n));
}

// The mark of the cell at a place set.
pub fn store_mark(cells: &mut [u8], place: usize, mark: bool)
    ensures { cells.new ≡ with_mark place mark cells.old }
{
    let Some(at) = cell_place(cells, place) else {
        return;
    };
    cells[at + 4] = u8::from(mark);
}
