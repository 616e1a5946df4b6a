// A sheet read: a line of it, all of its lines looked at, and then all of them stored.
ghost use Rattle.std.specs.Prelude.{◌≡◌, true};
ghost use Rattle.protocol.specs.Numbers.{done};
ghost use Rattle.protocol.specs.Refusal.{number_told};
ghost use Rattle.protocol.specs.Tree.{property_in};
ghost use Rattle.protocol.specs.Sheet.{settings_of, sheet_number, loaded};
ghost use Rattle.tree.specs.Seen.{seen};
ghost use Rattle.cells.specs.Cells.{cells_in, cells_form, has_cells};
ghost use Rattle.sheet.specs.Steps.{LineIs, is_held};

use super::setting;
use super::setting::Settings;
use cells::cell;
use protocol::Refusal;
use text::read;
use text::read::Numeral;
use tree::{part, range, record};

// The line of the property at a place, at the front of what is left of a sheet: its number, and how many bytes the line takes.
fn read_line(tree: &[u8], k: usize, bs: &[u8]) -> Option<Numeral>
    ensures { LineIs (property_in (seen tree.now) k) bs.now result }
{
    let label = &tree[part::label(tree, k)];
    let behind = bs.strip_prefix(label)?.strip_prefix(b"=")?;
    let numeral = read::read_number(range::takes_sign(record::read_fields(tree, k)), behind)?;
    Some(Numeral {
        word: numeral.word,
        size: label.len() + 1 + numeral.size,
    })
}

// Whether a number that was read is one of 32 bits, and then one that the setting at a place may hold.
fn is_in_range(tree: &[u8], k: usize, word: Option<u32>) -> bool
    ensures { result ≡ is_held (property_in (seen tree.now) k) word }
{
    word.is_some_and(|w| setting::may_hold(tree, k, w))
}

// All lines looked at: 17, 18 or 0.
pub(crate) fn check_lines(tree: &[u8], sheet: &[u8]) -> Result<(), Refusal>
    ensures { number_told result ≡ sheet_number (seen tree.now) (settings_of (seen tree.now)) sheet.now }
{
    let mut in_range = true;
    let mut left = sheet;
    let settings = Settings { tree, from: 0 };
    for k in settings {
        let Some(line) = read_line(tree, k, left) else {
            return Err(Refusal::BadSheet);
        };
        in_range &= is_in_range(tree, k, line.word);
        left = left.split_at(line.size).1;
    }
    if left.len() != 0 {
        return Err(Refusal::BadSheet);
    }
    if !in_range {
        return Err(Refusal::NotInRange);
    }
    Ok(())
}

// All lines stored.
pub(crate) fn store_lines(tree: &[u8], cells: &mut [u8], sheet: &[u8])
    requires { (has_cells cells.old ≡ true) × (sheet_number (seen tree.now) (settings_of (seen tree.now)) sheet.now ≡ done) }
    ensures { cells.new ≡ cells_form (loaded (seen tree.now) (settings_of (seen tree.now)) sheet.now (cells_in cells.old)) }
{
    let mut left = sheet;
    let settings = Settings { tree, from: 0 };
    for k in settings {
        let line = read_line(tree, k, left).unwrap();
        cell::store_word(cells, k, line.word.unwrap());
        left = left.split_at(line.size).1;
    }
}
