// The cases of documents 01, 02, 003 and 000. Each is a line of standard input and gives a line of output: name, number, bytes.
// tests/cases.py writes both, and works out what this program must print.
//
// A line has five fields with `|` between them: the name of the case, then four in hex with capital letters.
//
//     name|numbers|string|tree|lent
//
// The numbers are 12 bytes: kind, room for the output (two bytes), size of what is lent (two bytes), address, mark, index,
// value (four bytes), each high byte first. Lent are cells, a stream state or records; where the field is empty, they are as the line
// before left them. The kinds stand in the files of crates/calls/src and crates/bus_calls/src. What a kind does not need is 0 or empty.
// A line that is not of this form, or whose kind is not known, prints `broken` and is the last.
#![tactic(auto)]

mod record;
mod show;

ghost use Rattle.std.specs.Prelude.{◌≡◌, ◌≤◌, IfSome, length};

use calls::{Answer, Numbers};
use record::Case;
use std::io;

// Room for the text of all cases.
const TEXT_ROOM: usize = 131072;

// How many bytes the numbers of a case are.
const NUMBERS: usize = 12;

// The most bytes that a field has.
const FIELD_ROOM: usize = 1024;

// The most room that a case gives its output: for the longest listing.
const OUT_ROOM: usize = 2560;

// The numbers of a case from their bytes.
fn numbers_of(b: &[u8; NUMBERS]) -> Numbers {
    Numbers {
        kind: b[0],
        room: usize::from(word::half_of(b[1], b[2])),
        lent: usize::from(word::half_of(b[3], b[4])),
        address: b[5],
        mark: b[6],
        index: b[7],
        value: word::word_of(b[8], b[9], b[10], b[11]),
    }
}

// Makes the call of a case; none where a field cannot be read or the kind is not known. Neither the output nor what is lent is larger
// than the numbers say.
fn call(case: Case, lent: &mut [u8], out: &mut [u8]) -> Option<Answer>
    ensures { IfSome result (λ answer. answer.len ≤ length out.new) }
{
    let mut b = [0u8; NUMBERS];
    if record::put_bytes(case.numbers, &mut b)? != NUMBERS {
        return None;
    }
    let n = numbers_of(&b);
    let mut string = [0u8; FIELD_ROOM];
    let s = record::put_bytes(case.string, &mut string)?;
    let mut tree = [0u8; FIELD_ROOM];
    let t = record::put_bytes(case.tree, &mut tree)?;
    record::put_bytes(case.lent, lent)?;
    let size = n.lent.min(lent.len());
    let room = n.room.min(out.len());
    calls::run(
        n,
        &string[..s],
        &tree[..t],
        &mut lent[..size],
        &mut out[..room],
    )
}

// Runs a case and shows its line. Returns false where the case is broken.
fn run_case(rt: &impl Print, case: Case, lent: &mut [u8]) -> io::Result<bool> {
    let mut out = [0u8; OUT_ROOM];
    let Some(answer) = call(case, lent, &mut out) else {
        return Ok(false);
    };
    show::line(rt, case.name, answer.number, &out[..answer.len])?;
    Ok(true)
}

// Runs all cases of a text.
fn run_all(rt: &impl Print, text: &[u8], lent: &mut [u8]) -> io::Result<()> {
    let mut left = text;
    while left.len() != 0 {
        let Some(case) = record::first(left) else {
            return show::broken(rt);
        };
        if !run_case(rt, case, lent)? {
            return show::broken(rt);
        }
        left = case.behind;
    }
    Ok(())
}

// The buffer for the text.
fn text_buffer() -> [u8; TEXT_ROOM]
    ensures { 131072 ≡ length result }
{
    [0; TEXT_ROOM]
}

// A text that fills the buffer may be longer than it.
fn main(rt: HostRuntime) -> io::Result<()> {
    let mut text = text_buffer();
    let n = input::read_full(&mut rt.reader(), &mut text)?;
    if n == text.len() {
        return show::broken(&rt);
    }
    let mut lent = [0u8; FIELD_ROOM];
    run_all(&rt, &text[..n], &mut lent)
}
