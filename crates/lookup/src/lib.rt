// Lookups in a lent tree: the node of a path, a child by its node number, a property by its index, and how many of them there
// are. Every call gets the tree as bytes (docs/FORMATS.md), sound or not.
#![tactic(auto)]

ghost use Rattle.std.specs.Prelude.{◌≡◌, ℕ, ◌+◌, ◌*◌, ◌<◌, length, get_or, eqb};
ghost use Rattle.protocol.specs.Tree.{numbered, children_of, properties_of, child_of, property_of, node_at};
ghost use Rattle.protocol.specs.Path.{missing_length};
ghost use Rattle.tree.specs.Seen.{seen};
ghost use Rattle.protocol.specs.Refusal.{option_of};
ghost use Rattle.lookup.specs.Reach.{reached_of};

use protocol::{NodeNumber, PropertyIndex};
use tree::{NODE_SIZE, PROPERTY_SIZE, bytes, record};

// Records of one size, and which of them are looked at: from one place in the list to an end.
#[derive(Clone, Copy)]
pub(crate) struct Table {
    pub start: usize,
    pub size: usize,
    pub first: u8,
    pub end: u8,
    ghost small: { (start < 65536) × (size < 256) },
}

impl Table {
    ghost use Rattle.lookup.specs.Find.{belonging};

    // All nodes but the device, which is nobody's child.
    fn of_nodes(tree: &[u8]) -> Table
        ensures { (node : ℕ) → belonging tree.now result node ≡ children_of (seen tree.now) node }
    {
        Table {
            start: 2,
            size: NODE_SIZE,
            first: 1,
            end: bytes::byte_at(tree, 0),
        }
    }

    // All properties.
    fn of_properties(tree: &[u8]) -> Table
        ensures { (node : ℕ) → belonging tree.now result node ≡ properties_of (seen tree.now) node }
    {
        Table {
            start: record::properties_start(tree),
            size: PROPERTY_SIZE,
            first: 0,
            end: bytes::byte_at(tree, 1),
        }
    }

    // Whether the record at a place names a node, which it does by its first byte.
    fn names(self, tree: &[u8], k: u8, node: usize) -> bool
        ensures { result ≡ eqb (get_or tree.now (self.start + k * self.size) 0) node }
    {
        usize::from(bytes::byte_at(tree, self.start + usize::from(k) * self.size)) == node
    }

    // The place of the record with a number among those that name a node.
    fn numbered(self, tree: &[u8], node: usize, n: u8) -> Option<usize>
        ensures { result ≡ option_of (numbered (belonging tree.now self node) n) }
    {
        if n == 0 {
            return None;
        }
        let mut left = n;
        for k in self.first..self.end {
            left -= u8::from(self.names(tree, k, node));
            if left == 0 {
                return Some(usize::from(k));
            }
        }
        None
    }

    // How many records name a node.
    fn count(self, tree: &[u8], node: usize) -> u8
        ensures { result ≡ length (belonging tree.now self node) }
    {
        let mut n = 0;
        for k in self.first..self.end {
            n += u8::from(self.names(tree, k, node));
        }
        n
    }
}

// The child of a node with a node number.
pub fn child(tree: &[u8], node: usize, n: NodeNumber) -> Option<usize>
    ensures { result ≡ option_of (child_of (seen tree.now) node n) }
{
    Table::of_nodes(tree).numbered(tree, node, n.0)
}

// The property of a node with a property index.
pub fn property(tree: &[u8], node: usize, index: PropertyIndex) -> Option<usize>
    ensures { result ≡ option_of (property_of (seen tree.now) node index) }
{
    Table::of_properties(tree).numbered(tree, node, index.0)
}

// How many children a node has, and how many properties.
pub fn children(tree: &[u8], node: usize) -> u8
    ensures { result ≡ length (children_of (seen tree.now) node) }
{
    Table::of_nodes(tree).count(tree, node)
}

pub fn properties(tree: &[u8], node: usize) -> u8
    ensures { result ≡ length (properties_of (seen tree.now) node) }
{
    Table::of_properties(tree).count(tree, node)
}

// The length of a path's shortest front part that no node has.
#[derive(Clone, Copy)]
pub struct Missing(pub usize);

// The place of the node of a path: the device, whose path is 1, then child after child.
pub fn node(tree: &[u8], path: &[u8]) -> Result<usize, Missing>
    ensures { result ≡ reached_of (node_at (seen tree.now) path.now) (missing_length (seen tree.now) path.now) }
{
    if path.is_empty() {
        return Err(Missing(0));
    }
    if path[0] != 1 {
        return Err(Missing(1));
    }
    let mut place = 0;
    for i in 1..path.len() {
        place = child(tree, place, NodeNumber(path[i])).ok_or(Missing(i + 1))?;
    }
    Ok(place)
}
