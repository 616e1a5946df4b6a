// The listing of a lent tree (document 02, section 1). Every call gets the tree as bytes (docs/FORMATS.md), sound or not.
#![tactic(auto)]

mod entry;
pub mod print;
mod walk;

ghost use Rattle.text.specs.Unwritten.{number_written, length_written};
ghost use Rattle.listing.specs.Lists.{Lists};

use soundness::sound;
use text::fill;
use text::unwritten::Unwritten;
use walk::Listing;

// Room for every listing.
pub const LISTING_ROOM: usize = 17664;

// The listing, put at the front of an output: 1, then 8 where the room is shorter than the listing, then 0. Tells its length, with
// 8 too; with 1 that is 0.
pub fn list(tree: &[u8], out: &mut [u8]) -> Result<usize, Unwritten>
    ensures { Lists tree.now out.old (number_written result) (length_written result) out.new }
{
    let tree = sound::check(tree)?;
    fill::fill(Listing { tree }, LISTING_ROOM, out)
}
