// Where the texts of a tree lie in its bytes.
ghost use Rattle.std.specs.Prelude.{◌≡◌, ◌+◌, ◌*◌, ◌≤◌, length};
ghost use Rattle.protocol.specs.Tree.{node_in, property_in};
ghost use Rattle.tree.specs.Form.{node_size, property_size, properties_start};
ghost use Rattle.tree.specs.Seen.{half_at, seen, node_count, property_count};
ghost use Rattle.tree.specs.Lookup.{name_start, label_start, PartIs};
ghost use Rattle.tree.specs.Steps.{PlaceIs, start_of, text_of};

use super::{NODE_SIZE, bytes, record};
use std::ops::Range;

// Where a node's name lies, as its record has it; nothing where there is no such node.
pub(crate) fn name_place(tree: &[u8], node: usize) -> Option<usize>
    ensures { PlaceIs (node_count tree.now) node (half_at (3 + node * node_size) tree.now) result }
{
    if node < usize::from(bytes::byte_at(tree, 0)) {
        return Some(usize::from(bytes::half_at(tree, 3 + node * NODE_SIZE)));
    }
    None
}

// The same of a property's label.
fn label_place(tree: &[u8], place: usize) -> Option<usize>
    ensures { PlaceIs (property_count tree.now) place (half_at (properties_start (node_count tree.now) + place * property_size + 14) tree.now) result }
{
    let record = record::record_place(tree, place)?;
    Some(usize::from(bytes::half_at(tree, record + 14)))
}

// The text that begins at a place, without the zero that ends it; an empty one at the front where that is no place in the bytes.
fn text_at(tree: &[u8], from: Option<usize>) -> Range<usize>
    ensures { PartIs (start_of tree.now from) (text_of tree.now from) tree.now result }
{
    match from {
        Some(from) if from <= tree.len() => from..from + word::before_zero(&tree[from..]),
        _ => 0..0,
    }
}

// A node's name; empty where there is no such node.
pub fn name(tree: &[u8], node: usize) -> Range<usize>
    ensures { PartIs (name_start tree.now node) (node_in (seen tree.now) node).name tree.now result }
{
    text_at(tree, name_place(tree, node))
}

// A property's label; empty where there is no such property.
pub fn label(tree: &[u8], place: usize) -> Range<usize>
    ensures { PartIs (label_start tree.now place) (property_in (seen tree.now) place).label tree.now result }
{
    text_at(tree, label_place(tree, place))
}

// Where a property's label begins; at the front where it has no place in the bytes.
pub fn label_start(tree: &[u8], place: usize) -> usize
    ensures { (result ≡ label_start tree.now place) × (result ≤ length tree.now) }
{
    match label_place(tree, place) {
        Some(from) if from <= tree.len() => from,
        _ => 0,
    }
}
