// Texts in lent bytes, each ended by a zero: their end found.
ghost use Rattle.std.specs.Prelude.{◌≡◌, ◌+◌, ◌-◌, ◌≤◌, length, take, drop};
ghost use Rattle.protocol.specs.Tree.{is_character};
ghost use Rattle.protocol.specs.Refusal.{option_of};
ghost use Rattle.soundness.specs.Check.{characters_in, texts_end_in};

use protocol::{FIRST_CHARACTER, LAST_CHARACTER};

// A character is 20h to 7Eh (document 01, The tree).
fn is_character(b: u8) -> bool
    ensures { result ≡ is_character b }
{
    (FIRST_CHARACTER..=LAST_CHARACTER).contains(&b)
}

// The place of the first byte from a place on that is no character, or the end. Two bytes are looked at in a round.
fn characters_end(tree: &[u8], from: usize, end: usize) -> usize
    requires { (from ≤ end) × (end ≤ length tree.now) }
    ensures { result ≡ from + characters_in (take (end - from) (drop from tree.now)) }
{
    let mut at = from;
    while at + 1 < end {
        if !is_character(tree[at]) {
            return at;
        }
        if !is_character(tree[at + 1]) {
            return at + 1;
        }
        at += 2;
    }
    if end <= at {
        return at;
    }
    if !is_character(tree[at]) {
        return at;
    }
    at + 1
}

// The place after some texts that begin at a place and take at most so many bytes; nothing where a byte is no character, or
// bytes or room end before the texts do.
pub(crate) fn texts_end(tree: &[u8], from: usize, count: usize, room: usize) -> Option<usize>
    ensures { result ≡ option_of (texts_end_in tree.now room count from) }
{
    let end = from + room.min(tree.get(from..)?.len());
    let mut left = count;
    let mut at = from;
    while at < end {
        let stop = characters_end(tree, at, end);
        if end <= stop || tree[stop] != 0 {
            return None;
        }
        at = stop + 1;
        if left <= 1 {
            return Some(at);
        }
        left -= 1;
    }
    None
}
