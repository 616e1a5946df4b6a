// The program `list`: the lent form of a tree from standard input, its listing on standard output (document 02, section 1). What it
// prints is `listing::print::print`.
#![tactic(auto)]

ghost use Rattle.std.specs.Prelude.{◌≡◌, length};
ghost use Rattle.listing.specs.Print.{input_room, listing_room};

use listing::LISTING_ROOM;
use listing::print::INPUT_ROOM;
use std::io;

// Room for the longest lent form and one byte more, by which a longer input is told.
fn input_buffer() -> [u8; INPUT_ROOM]
    ensures { length result ≡ input_room }
{
    [0; INPUT_ROOM]
}

// Room for every listing.
fn output_buffer() -> [u8; LISTING_ROOM]
    ensures { length result ≡ listing_room }
{
    [0; LISTING_ROOM]
}

fn main(rt: HostRuntime) -> io::Result<()> {
    let mut form = input_buffer();
    let n = input::read_full(&mut rt.reader(), &mut form)?;
    let mut out = output_buffer();
    let len = listing::print::print(&form[..n], &mut out);
    rt.write_all(&out[..len])
}
