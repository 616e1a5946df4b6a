// Whether lent bytes stand for a sound tree: the check, record after record. It gets the tree as bytes (docs/FORMATS.md) and
// trusts none of them.
#![tactic(auto)]

mod parents;
pub mod sound;
mod texts;

ghost use Rattle.std.specs.Prelude.{◌≡◌, ◌+◌, ◌*◌, ◌<◌, drop};
ghost use Rattle.protocol.specs.Tree.{standard_fits, live_sound};
ghost use Rattle.tree.specs.Form.{node_size, property_size, properties_start};
ghost use Rattle.tree.specs.Seen.{node_count, property_count};
ghost use Rattle.protocol.specs.Refusal.{option_of};
ghost use Rattle.tree.specs.Lookup.{numbers_of};
ghost use Rattle.soundness.specs.Sound.{is_tree};
ghost use Rattle.soundness.specs.Check.{RecordsEnd, node_end, property_end, kind_fits, fields_fit, counts_fit, texts_fit};

use protocol::{
    ENUMERATION, LAST_STEP_CODE, MAX_NODES, MAX_OPTION, MAX_PROPERTIES, MAX_TEXTS, NAME_ROOM,
    STANDARD,
};
use tree::record::Fields;
use tree::{NODE_SIZE, PROPERTY_SIZE, bytes, record};

// A node's record, from where the texts before it ended: the end of its name.
fn node_end(tree: &[u8], k: u8, at: usize) -> Option<usize>
    ensures { result ≡ option_of (node_end tree.now (drop (2 + k * node_size) tree.now) at) }
{
    if usize::from(bytes::half_at(tree, 3 + usize::from(k) * NODE_SIZE)) != at {
        return None;
    }
    texts::texts_end(tree, at, 1, NAME_ROOM)
}

// The numbers of type 1: its range, and a step code that means a step.
#[tactic(auto, unfolding(protocol::specs::Tree::standard_fits))]
fn standard_fits(f: Fields) -> bool
    ensures { result ≡ standard_fits (numbers_of f) }
{
    record::at_most(f.is_signed(), f.min, f.max) && f.step_code() <= LAST_STEP_CODE
}

// The numbers of a property that its type has rules for.
#[tactic(auto, unfolding(crate::specs::Check::kind_fits))]
fn kind_fits(f: Fields) -> bool
    ensures { result ≡ kind_fits (numbers_of f) }
{
    if f.kind == STANDARD {
        return standard_fits(f);
    }
    f.kind == ENUMERATION && f.min == 0 && f.max <= MAX_OPTION
}

// A live property has read and not write.
#[tactic(auto, unfolding(protocol::specs::Tree::live_sound))]
fn live_fits(f: Fields) -> bool
    ensures { result ≡ live_sound (numbers_of f) }
{
    !f.is_live() || (f.can_read() && !f.can_write())
}

// The rules of a property's numbers, in a tree of so many nodes.
#[tactic(auto, unfolding(crate::specs::Check::fields_fit))]
fn fields_fit(nodes: usize, f: Fields) -> bool
    ensures { result ≡ fields_fit nodes (numbers_of f) }
{
    usize::from(f.node) < nodes && live_fits(f) && kind_fits(f)
}

// A property's record, from where the texts before it ended: the end of its texts.
fn property_end(tree: &[u8], k: u8, at: usize) -> Option<usize>
    ensures { k < property_count tree.now → result ≡ option_of (property_end tree.now (drop (properties_start (node_count tree.now) + k * property_size) tree.now) at) }
{
    let k = usize::from(k);
    let f = record::read_fields(tree, k);
    if !fields_fit(usize::from(bytes::byte_at(tree, 0)), f) {
        return None;
    }
    let place = record::properties_start(tree) + k * PROPERTY_SIZE + 14;
    if usize::from(bytes::half_at(tree, place)) != at {
        return None;
    }
    let mid = texts::texts_end(tree, at, 1, NAME_ROOM)?;
    texts::texts_end(tree, mid, record::option_count(f.kind, f.max), MAX_TEXTS)
}

// So many records, each from where the texts before it ended: the end of their texts.
fn records_end<F: Fn(&[u8], u8, usize) -> Option<usize>>(
    tree: &[u8],
    count: u8,
    start: usize,
    record_end: F,
) -> Option<usize>
    requires { F.IsAlwaysCallable record_end }
    ensures { RecordsEnd (λ t k at r. F.post record_end t k at r) tree.now count start result }
{
    let mut at = start;
    for k in 0..count {
        at = record_end(tree, k, at)?;
    }
    Some(at)
}

// The names of all nodes, then the labels and units or options of all properties, from behind the records: the end of them.
fn texts_fit(tree: &[u8]) -> Option<usize>
    ensures { result ≡ option_of (texts_fit tree.now) }
{
    let properties = bytes::byte_at(tree, 1);
    let start = record::properties_start(tree) + usize::from(properties) * PROPERTY_SIZE;
    let mid = records_end(tree, bytes::byte_at(tree, 0), start, node_end)?;
    records_end(tree, properties, mid, property_end)
}

// The counts fit, and the records are all there.
#[tactic(auto, unfolding(crate::specs::Check::counts_fit))]
fn counts_fit(tree: &[u8]) -> bool
    ensures { result ≡ counts_fit tree.now }
{
    2 <= tree.len()
        && usize::from(tree[0]) <= MAX_NODES
        && usize::from(tree[1]) <= MAX_PROPERTIES
        && record::properties_start(tree) + usize::from(tree[1]) * PROPERTY_SIZE <= tree.len()
}

// Whether bytes stand for a sound tree.
pub fn is_tree(tree: &[u8]) -> bool
    ensures { result ≡ is_tree tree.now }
{
    counts_fit(tree) && parents::parents_sound(tree) && texts_fit(tree) == Some(tree.len())
}
