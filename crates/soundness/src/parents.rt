// The nodes' parents and depths.
ghost use Rattle.std.specs.Prelude.{◌≡◌, ◌&&◌, leb};
ghost use Rattle.tree.specs.Seen.{node_count};
ghost use Rattle.soundness.specs.Check.{parents_in, parents_fit};

use protocol::{MAX_DEPTH, MAX_NODES};
use tree::{NODE_SIZE, bytes};

// Whether the device names itself, each other node a parent before it, and none stands too deep. No tree has more nodes than
// are counted here.
pub(crate) fn parents_sound(tree: &[u8]) -> bool
    ensures { result ≡ (leb (node_count tree.now) 64 && parents_fit (parents_in tree.now)) }
{
    let nodes = usize::from(bytes::byte_at(tree, 0));
    if MAX_NODES < nodes || nodes == 0 || bytes::byte_at(tree, 2) != 0 {
        return false;
    }
    let mut depths = [0u8; MAX_NODES];
    depths[0] = 1;
    for k in 1..nodes {
        let parent = usize::from(bytes::byte_at(tree, 2 + k * NODE_SIZE));
        if k <= parent || MAX_DEPTH <= usize::from(depths[parent]) {
            return false;
        }
        depths[k] = depths[parent] + 1;
    }
    true
}
