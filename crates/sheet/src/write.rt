// A sheet written: the words of the settings, and their lines.
ghost use Rattle.std.specs.Prelude.{◌≡◌, true};
ghost use Rattle.protocol.specs.Tree.{property_in, cell_in};
ghost use Rattle.protocol.specs.Sheet.{is_setting, may_hold, setting_line, sheet, in_ranges};
ghost use Rattle.tree.specs.Seen.{seen};
ghost use Rattle.cells.specs.Cells.{cells_in};
ghost use Rattle.text.specs.Lays.{Lays};

use super::setting;
use super::setting::Settings;
use cells::cell;
use cells::lent::Lent;
use text::line::{Value, Word};
use text::output::Output;
use tree::{part, range, record};

// The word of a setting.
fn word_of(lent: Lent, k: usize) -> u32
    requires { is_setting (property_in (seen lent.tree.now) k) ≡ true }
    ensures { result ≡ (cell_in (cells_in lent.entry.cells.now) k).word }
{
    cell::reading(lent.tree, lent.cells, k).unwrap()
}

// Whether a setting holds a word in range.
fn is_in_range(lent: Lent, k: usize) -> bool
    requires { is_setting (property_in (seen lent.tree.now) k) ≡ true }
    ensures { result ≡ may_hold (property_in (seen lent.entry.tree.now) k) (cell_in (cells_in lent.entry.cells.now) k).word }
{
    setting::may_hold(lent.tree, k, word_of(lent, k))
}

// Whether every setting holds a word in range.
pub(crate) fn are_in_range(lent: Lent) -> bool
    ensures { result ≡ in_ranges (seen lent.entry.tree.now) (cells_in lent.entry.cells.now) }
{
    let settings = Settings {
        tree: lent.tree,
        from: 0,
    };
    for k in settings {
        if !is_in_range(lent, k) {
            return false;
        }
    }
    true
}

// The line of a setting.
fn put_setting(lent: Lent, k: usize, output: &mut Output)
    requires { is_setting (property_in (seen lent.tree.now) k) ≡ true }
    ensures { Lays (setting_line (property_in (seen lent.entry.tree.now) k) (cell_in (cells_in lent.entry.cells.now) k).word) output.old output.new }
{
    let word = Word {
        signed: range::takes_sign(record::read_fields(lent.tree, k)),
        word: word_of(lent, k),
    };
    output.put_line(&lent.tree[part::label(lent.tree, k)], word);
}

// A sheet: the lines of all settings, in list order.
#[derive(Clone, Copy)]
pub(crate) struct Sheet<'a> {
    pub lent: Lent<'a>,
}

impl<'a> Value for Sheet<'a> {
    ghost shown = { λ s. sheet (seen s.lent.tree.now) (cells_in s.lent.cells.now) };

    fn put(self, output: &mut Output) {
        let settings = Settings {
            tree: self.lent.tree,
            from: 0,
        };
        for k in settings {
            put_setting(self.lent, k, output);
        }
    }
}
