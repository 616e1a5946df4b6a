// Postings, cells restored and readings, over a tree and the cells that are lent. The kinds:
//
//     40  a posting             index: its place; value: its word; mark: 1 where it is ready
//     41  saved cells restored
//     42  a reading             index: its place
//
// In 40 and 41 the bytes are those of all cells afterwards, in 42 those of the word.
use super::{Answer, Numbers};
use cells::{cell, update};
use frame::buffer;
use protocol::Refusal;

fn post(n: Numbers, tree: &[u8], cells: &mut [u8], out: &mut [u8]) -> Answer {
    let posted = update::post(tree, cells, usize::from(n.index), n.value, n.mark == 1);
    Answer::of(posted.err(), buffer::put_all(cells, out, 0))
}

fn restore(tree: &[u8], cells: &mut [u8], out: &mut [u8]) -> Answer {
    let restored = update::restore(tree, cells);
    Answer::of(restored.err(), buffer::put_all(cells, out, 0))
}

fn reading(n: Numbers, tree: &[u8], cells: &[u8], out: &mut [u8]) -> Answer {
    match cell::reading(tree, cells, usize::from(n.index)) {
        Some(word) => Answer::of(None, bus_calls::put_word(word, out, 0)),
        None => Answer::of(Some(Refusal::NoReading), 0),
    }
}

pub(crate) fn run(n: Numbers, tree: &[u8], cells: &mut [u8], out: &mut [u8]) -> Option<Answer> {
    let answer = match n.kind {
        0x40 => post(n, tree, cells, out),
        0x41 => restore(tree, cells, out),
        0x42 => reading(n, tree, cells, out),
        _ => return None,
    };
    Some(answer)
}
