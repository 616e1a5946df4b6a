// The listing of a tree, and settings on a sheet, over a tree and the cells that are lent. The kinds:
//
//     50  the listing
//     51  the same
//     60  the sheet written
//     61  the same
//     62  a sheet read           string: the sheet
//
// Listing and writing take two lines. In 50 and 60 the bytes are the text, and none where it is refused; in 51 and 61 they are those of
// the length told. In 62 they are those of all cells afterwards.
use super::{Answer, Numbers};
use frame::buffer;
use protocol::DONE;
use text::unwritten::Unwritten;

fn lines(written: Result<usize, Unwritten>) -> Answer {
    match written {
        Ok(len) => Answer { number: DONE, len },
        Err(unwritten) => Answer {
            number: u8::from(unwritten),
            len: 0,
        },
    }
}

fn length(written: Result<usize, Unwritten>, out: &mut [u8]) -> Answer {
    let told = match written {
        Ok(size) | Err(Unwritten::NoRoom(size)) => size,
        Err(Unwritten::Refused(_)) => 0,
    };
    Answer {
        number: lines(written).number,
        len: bus_calls::put_word((told % 65536) as u32, out, 0),
    }
}

fn load(string: &[u8], tree: &[u8], cells: &mut [u8], out: &mut [u8]) -> Answer {
    let loaded = sheet::read_sheet(tree, cells, string);
    Answer::of(loaded.err(), buffer::put_all(cells, out, 0))
}

pub(crate) fn run(
    n: Numbers,
    string: &[u8],
    tree: &[u8],
    cells: &mut [u8],
    out: &mut [u8],
) -> Option<Answer> {
    let answer = match n.kind {
        0x50 => lines(listing::list(tree, out)),
        0x51 => length(listing::list(tree, out), out),
        0x60 => lines(sheet::write_sheet(tree, cells, out)),
        0x61 => length(sheet::write_sheet(tree, cells, out), out),
        0x62 => load(string, tree, cells, out),
        _ => return None,
    };
    Some(answer)
}
