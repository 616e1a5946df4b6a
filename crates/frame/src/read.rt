// Serial strings, read.
ghost use Rattle.std.specs.Prelude.{◌≡◌, ◌+◌, ◌^◌, ◌<◌, ◌≤◌, false, length, take, drop};
ghost use Rattle.std.proofs.Math.Option.{some};
ghost use Rattle.protocol.specs.Frame.{doubled, undouble, judge_whole, read_frame, cut, if_room};
ghost use Rattle.protocol.specs.Numbers.{room_data};
ghost use Rattle.protocol.specs.Buffer.{Put, Emits};
ghost use Rattle.protocol.specs.Refusal.{number_told, length_told};
ghost use Rattle.frame.specs.Steps.{piece_of, Tallies, OneMore, ScanOf, judged, Checks, content_from};

use super::{buffer, checksum};
use protocol::{DLE, ETX, MAX_CONTENT, ROOM_DATA, Refusal, STX};

// What stands at a place after 10 02: a lone byte, a doubled 10h, the 10 03 at the very end, or anything else.
#[derive(Drop)]
pub(crate) enum Piece {
    Lone(u8),
    Doubled,
    End,
    Bad,
}

fn piece_at(s: &[u8], i: usize) -> Piece
    requires { i < length s.now }
    ensures { result ≡ piece_of (drop i s.now) }
{
    let b = s[i];
    if b != DLE {
        return Piece::Lone(b);
    }
    let left = s.len() - i;
    if left < 2 {
        return Piece::Bad;
    }
    let p = s[i + 1];
    if p == DLE {
        return Piece::Doubled;
    }
    if p == ETX && left == 2 {
        return Piece::End;
    }
    Piece::Bad
}

// What a content is judged by: how many bytes it has, their sum mod 256, and the first of them.
#[derive(Default, Drop)]
pub(crate) struct Tally {
    pub count: usize,
    pub sum: u8,
    pub first: u8,
}

// The tally with one byte more.
fn add_byte(t: Tally, b: u8) -> Tally
    requires { t.count < 2 ^ 63 }
    ensures { OneMore t b result }
{
    let first = if t.count == 0 { b } else { t.first };
    Tally {
        count: t.count + 1,
        sum: checksum::add(t.sum, b),
        first,
    }
}

// One pass over the bytes after 10 02: their content's tally, or none where they are no content with 10 03 at its end.
fn scan_string(s: &[u8]) -> Option<Tally>
    requires { 2 ≤ length s.now }
    ensures { ScanOf (undouble false (drop 2 s.now)) result }
{
    let mut t = Tally::default();
    let mut i = 2;
    while i < s.len() {
        match piece_at(s, i) {
            Piece::Lone(b) => {
                t = add_byte(t, b);
                i += 1;
            }
            Piece::Doubled => {
                t = add_byte(t, DLE);
                i += 2;
            }
            Piece::End => return Some(t),
            Piece::Bad => return None,
        }
    }
    None
}

// How many bytes a byte takes in a frame.
fn width(b: u8) -> usize
    ensures { result ≡ length (doubled b) }
{
    if b == DLE {
        return 2;
    }
    1
}

// A content judged by its tally: 4, 5, 6, 7 or how many bytes its data has.
#[tactic(auto, unfolding(crate::specs::Steps::judged))]
fn judge(address: u8, t: Tally) -> Result<usize, Refusal>
    ensures { result ≡ judged address t }
{
    if t.count < 3 {
        return Err(Refusal::TooShort);
    }
    if MAX_CONTENT < t.count {
        return Err(Refusal::TooLong);
    }
    if t.sum != 255 {
        return Err(Refusal::BadChecksum);
    }
    if t.first != address {
        return Err(Refusal::OtherAddress);
    }
    Ok(t.count - 2)
}

// A serial string read for an address, with no output: its refusal, or how many bytes its data has.
fn check_frame(address: u8, s: &[u8]) -> Result<usize, Refusal>
    ensures { Checks address s.now result }
{
    if s.len() < 2 || s[0] != DLE || s[1] != STX {
        return Err(Refusal::NoPreamble);
    }
    let Some(t) = scan_string(s) else {
        return Err(Refusal::BadPair);
    };
    judge(address, t)
}

// Content bytes of a string, from a place on, copied to the front of an output: n of them, or as many as there are. Returns
// how many.
fn copy_content(s: &[u8], from: usize, n: usize, out: &mut [u8]) -> usize
    requires { n ≤ length out.old }
    ensures { Put 0 (content_from n (drop from s.now)) out.old result out.new }
{
    let mut i = from;
    for k in 0..n {
        if s.len() <= i {
            return k;
        }
        let b = s[i];
        out[k] = b;
        i += 1;
        if b == DLE {
            if s.len() <= i {
                return k + 1;
            }
            i += 1;
        }
    }
    n
}

// The same into an output of any length: as many as there is room for.
fn copy_fitting(s: &[u8], from: usize, n: usize, out: &mut [u8]) -> usize
    ensures { Put 0 (take (length out.old) (content_from n (drop from s.now))) out.old result out.new }
{
    copy_content(s, from, n.min(out.len()), out)
}

// A serial string read for an address, and as many bytes of its data as there is room for put at the front of a lent output:
// 2, 3, 4, 5, 6, 7 or how many.
pub fn read_front(address: u8, s: &[u8], out: &mut [u8]) -> Result<usize, Refusal>
    ensures { Emits (cut (length out.old) (read_frame address s.now)) out.old (number_told result) (length_told result) out.new }
{
    let len = check_frame(address, s)?;
    Ok(copy_fitting(s, 2 + width(address), len, out))
}

// A serial string read for an address into a lent output: 8, 2, 3, 4, 5, 6, 7 or the length of its data.
pub fn read_frame(address: u8, s: &[u8], out: &mut [u8]) -> Result<usize, Refusal>
    ensures { Emits (if_room room_data (length out.old) (read_frame address s.now)) out.old (number_told result) (length_told result) out.new }
{
    if out.len() < ROOM_DATA {
        return Err(Refusal::NoRoom);
    }
    read_front(address, s, out)
}

// The tally of a content that lies in one piece.
fn tally_of(content: &[u8]) -> Tally
    ensures { Tallies content.now result }
{
    let mut t = Tally::default();
    for b in content {
        t = add_byte(t, *b);
    }
    t
}

// A content that lies in one piece judged for an address, and its data put at the front of a lent output where it is good: 8,
// 4, 5, 6, 7 or the length of its data.
pub fn read_content(address: u8, content: &[u8], out: &mut [u8]) -> Result<usize, Refusal>
    ensures { Emits (if_room room_data (length out.old) (judge_whole address (some content.now))) out.old (number_told result) (length_told result) out.new }
{
    if out.len() < ROOM_DATA {
        return Err(Refusal::NoRoom);
    }
    let len = judge(address, tally_of(content))?;
    let end = len + 1;
    Ok(buffer::put_all(&content[1..end], out, 0))
}
