// The settings of a tree.
ghost use Rattle.std.specs.Prelude.{◌≡◌};
ghost use Rattle.std.specs.Iterator.{item_count};
ghost use Rattle.protocol.specs.Tree.{property_in};
ghost use Rattle.protocol.specs.Sheet.{is_setting, may_hold};
ghost use Rattle.tree.specs.Seen.{seen};
ghost use Rattle.tree.specs.Lookup.{numbers_of};
ghost use Rattle.sheet.specs.Steps.{rest, Gives};

use tree::record::Fields;
use tree::{range, record, step};

// Whether a property is a setting: it has read and write.
fn is_setting(f: Fields) -> bool
    ensures { result ≡ is_setting (numbers_of f) }
{
    f.can_read() && f.can_write()
}

// Whether the setting at a place may hold a word: it is in range, and on its step.
pub(crate) fn may_hold(tree: &[u8], k: usize, word: u32) -> bool
    ensures { result ≡ may_hold (property_in (seen tree.now) k) word }
{
    let f = record::read_fields(tree, k);
    range::in_range(f, word) && step::on_step(f, word)
}

// The places of the settings that stand at a place of the list or behind it, one after the other.
#[derive(Clone, Copy)]
pub(crate) struct Settings<'a> {
    pub tree: &'a [u8],
    pub from: usize,
}

impl<'a> Iterator for Settings<'a> {
    type Item = usize;

    ghost next_gives = { Gives };

    ghost remaining = { item_count rest };

    fn next(&mut self) -> Option<usize> {
        let k = record::next_where(self.tree, self.from, is_setting);
        if record::property_count(self.tree) <= k {
            return None;
        }
        self.from = k + 1;
        Some(k)
    }
}
