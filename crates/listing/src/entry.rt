// What is printed of a node and of a property: four lines each.
ghost use Rattle.protocol.specs.Tree.{properties_of};
ghost use Rattle.protocol.specs.Listing.{node, property};
ghost use Rattle.tree.specs.Seen.{seen};
ghost use Rattle.text.specs.Lays.{Lays};
ghost use Rattle.listing.specs.Steps.{item_text, properties_text, own_text};

use soundness::sound::SoundTree;
use text::line::Dotted;
use text::output::Output;
use tree::{PROPERTY_SIZE, part, record};

// A node: its path, its name, how many children it has and how many properties.
fn put_node(tree: &[u8], k: usize, path: &[u8], output: &mut Output)
    ensures { Lays (item_text (seen tree.now) (node k path.now)) output.old output.new }
{
    output.put_line(b"path", Dotted(path));
    output.put_line(b"name", &tree[part::name(tree, k)]);
    output.put_line(b"children", u32::from(lookup::children(tree, k)));
    output.put_line(b"properties", u32::from(lookup::properties(tree, k)));
}

// A property: its node's path, its index, its label and its type.
fn put_property(tree: &[u8], place: usize, path: &[u8], index: u32, output: &mut Output)
    ensures { Lays (item_text (seen tree.now) (property place path.now index)) output.old output.new }
{
    output.put_line(b"path", Dotted(path));
    output.put_line(b"index", index);
    output.put_line(b"label", &tree[part::label(tree, place)]);
    output.put_line(b"type", u32::from(record::read_fields(tree, place).kind));
}

// All properties of a node, in list order. A property's record begins with its node.
fn put_properties(tree: SoundTree, k: usize, path: &[u8], output: &mut Output)
    ensures { Lays (properties_text (seen tree.entry.bytes.now) path.now 1 (properties_of (seen tree.entry.bytes.now) k)) output.old output.new }
{
    let bytes = tree.bytes;
    let start = record::properties_start(bytes);
    let mut index: u32 = 0;
    for p in 0..record::property_count(bytes) {
        if usize::from(bytes[start + p * PROPERTY_SIZE]) != k {
            continue;
        }
        index += 1;
        put_property(bytes, p, path, index, output);
    }
}

// What is printed of a node itself: its lines, then those of its properties. The device's and any other node's are put from two
// places, so that this is compiled apart from the walk, whose frame stands on the stack once for each level of a tree.
pub(crate) fn put_own(tree: SoundTree, k: usize, path: &[u8], output: &mut Output)
    ensures { Lays (own_text (seen tree.entry.bytes.now) k path.now) output.old output.new }
{
    put_node(tree.bytes, k, path, output);
    put_properties(tree, k, path, output);
}
