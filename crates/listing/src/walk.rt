// The walk of a sound tree: a node, and then its children, each of which is a node again.
ghost use Rattle.std.specs.Prelude.{◌+◌, drop};
ghost use Rattle.protocol.specs.KeptPath.{path_in};
ghost use Rattle.protocol.specs.Listing.{below, subtree, listing};
ghost use Rattle.tree.specs.Seen.{seen};
ghost use Rattle.text.specs.Lays.{Lays};
ghost use Rattle.listing.specs.Steps.{walk_text, Stands};

use super::entry;
use protocol::path::Path;
use soundness::sound::SoundTree;
use text::line::Value;
use text::output::Output;
use tree::{NODE_SIZE, record};

// The listing of a tree: the device, which is nobody's child, and then its children.
#[derive(Clone, Copy)]
pub(crate) struct Listing<'a> {
    pub tree: SoundTree<'a>,
}

impl<'a> Value for Listing<'a> {
    ghost shown = { λ l. listing (seen l.tree.bytes.now) };

    fn put(self, output: &mut Output) {
        entry::put_own(self.tree, 0, &[1], output);
        walk_children(self.tree, 0, Path::device(), output);
    }
}

// The node at a place, which has a path: what is printed of it, and then its children.
#[cycle(tree_walk)]
fn walk_node(tree: SoundTree, k: usize, path: Path, output: &mut Output)
    requires { Stands tree.bytes.now k path.len }
    ensures { Lays (walk_text (seen tree.entry.bytes.now) (subtree (seen tree.entry.bytes.now) k (path_in path))) output.old output.new }
{
    entry::put_own(tree, k, path.as_slice(), output);
    walk_children(tree, k, path, output);
}

// The children of the node at a place, in number order, each with what stands below it. They stand behind it in the list, and
// the record of each begins with its parent.
#[cycle(tree_walk)]
fn walk_children(tree: SoundTree, k: usize, path: Path, output: &mut Output)
    requires { Stands tree.bytes.now k path.len }
    ensures { Lays (walk_text (seen tree.entry.bytes.now) (below (drop (k + 1) (seen tree.entry.bytes.now).nodes) (k + 1) k (path_in path) 1)) output.old output.new }
{
    let bytes = tree.bytes;
    let mut number: u8 = 0;
    for j in k + 1..record::node_count(bytes) {
        if usize::from(bytes[2 + j * NODE_SIZE]) != k {
            continue;
        }
        number += 1;
        walk_node(tree, j, path.child(number), output);
    }
}
