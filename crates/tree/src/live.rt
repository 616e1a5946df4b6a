// The live properties of a tree.
ghost use Rattle.protocol.specs.Tree.{is_live};
ghost use Rattle.tree.specs.Seen.{seen};
ghost use Rattle.tree.specs.Lookup.{NextIs};

use super::record;
use super::record::Fields;

// The place of the next live property, from a place on; behind the last property where there is none.
pub fn next(tree: &[u8], from: usize) -> usize
    ensures { NextIs is_live (seen tree.now) from result }
{
    record::next_where(tree, from, Fields::is_live)
}
