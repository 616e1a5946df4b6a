// The settings of a lent tree on a sheet (document 02, section 3): written from the cells, and read into them, all or nothing.
// Every call gets tree, cells and sheet as bytes and trusts none of them.
#![tactic(auto)]

mod label;
mod read;
mod setting;
mod write;

ghost use Rattle.std.specs.Prelude.{◌≡◌, IfOk};
ghost use Rattle.protocol.specs.Buffer.{Fills};
ghost use Rattle.protocol.specs.Refusal.{number_told};
ghost use Rattle.cells.specs.Lent.{Updates};
ghost use Rattle.text.specs.Unwritten.{number_written, length_written};
ghost use Rattle.sheet.specs.Sheets.{write_number, written, load_in};
ghost use Rattle.sheet.specs.Steps.{Stands};

use cells::{check, lent};
use protocol::Refusal;
use text::fill;
use text::unwritten::Unwritten;
use write::Sheet;

// Room for every sheet: 128 settings, each with a label of 23 characters and a number of 11.
pub const SHEET_ROOM: usize = 4608;

// The sheet of tree and cells, or the refusals of writing that come before 8: 1, 17, 18.
fn sheet_of<'a>(tree: &'a [u8], cells: &'a [u8]) -> Result<Sheet<'a>, Refusal>
    ensures number { number_told result ≡ write_number tree.now cells.now }
    ensures sheet { IfOk result (Stands tree.now cells.now) }
{
    let lent = lent::lend(tree, cells)?;
    if !label::are_writable(tree) {
        return Err(Refusal::BadSheet);
    }
    if !write::are_in_range(lent) {
        return Err(Refusal::NotInRange);
    }
    Ok(Sheet { lent })
}

// The sheet, put at the front of an output: 1, 17, 18, then 8 where the room is shorter than the sheet, then 0. Tells its length,
// with 8 too; with 1, 17 and 18 that is 0.
pub fn write_sheet(tree: &[u8], cells: &[u8], out: &mut [u8]) -> Result<usize, Unwritten>
    ensures { Fills (written tree.now cells.now) out.old (number_written result) (length_written result) out.new }
{
    let sheet = sheet_of(tree, cells)?;
    fill::fill(sheet, SHEET_ROOM, out)
}

// A sheet read: 1, 17, 18 or 0, and with 0 every setting's cell holds the number of its line. It is gone through twice: nothing is
// stored before all of it was looked at.
pub fn read_sheet(tree: &[u8], cells: &mut [u8], sheet: &[u8]) -> Result<(), Refusal>
    ensures { Updates (load_in tree.now cells.old sheet.now) (number_told result) cells.new }
{
    check::check(tree, cells)?;
    if !label::are_writable(tree) {
        return Err(Refusal::BadSheet);
    }
    read::check_lines(tree, sheet)?;
    read::store_lines(tree, cells, sheet);
    Ok(())
}
