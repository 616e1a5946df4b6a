// Postings, and saved cells lent again.
ghost use Rattle.protocol.specs.Refusal.{number_told};
ghost use Rattle.cells.specs.Lent.{Updates, post_in, restore_in};

use super::{cell, check};
use protocol::Refusal;
use tree::record;

// A reading posted to the cell of a live property, by the property's place: refused with 1 or 14. Marked not ready, the word stays.
pub fn post(tree: &[u8], cells: &mut [u8], place: usize, n: u32, ready: bool) -> Result<(), Refusal>
    ensures { Updates (post_in tree.now cells.old place n ready) (number_told result) cells.new }
{
    check::check(tree, cells)?;
    if !record::read_fields(tree, place).is_live() {
        return Err(Refusal::NotLive);
    }
    if ready {
        cell::store_word(cells, place, n);
    }
    cell::store_mark(cells, place, ready);
    Ok(())
}

// Saved cells lent again: every live property is marked not ready, and all else stays: refused with 1.
pub fn restore(tree: &[u8], cells: &mut [u8]) -> Result<(), Refusal>
    ensures { Updates (restore_in tree.now cells.old) (number_told result) cells.new }
{
    check::check(tree, cells)?;
    for k in 0..record::property_count(tree) {
        if record::read_fields(tree, k).is_live() {
            cell::store_mark(cells, k, false);
        }
    }
    Ok(())
}
