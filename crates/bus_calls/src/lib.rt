// A call of Buslink by its kind, for the program `cases`: frames sent from a tree and the cells that are lent, and received into records
// that are lent. The kinds:
//
//     70  a frame sent            address: base, mark: sub, index: type
//     71  the same
//     72  a frame received        address: base, mark: sub, value: identifier, string: data
//     73  the same
//     74  the same, into a slice of records
//     75  an indicator asked for  index: its number
//
// Sending takes two lines: in 70 the bytes are the data, and none where it is refused; in 71 they are those of the identifier. In 72
// they are the records afterwards; in 73 those of the mask of usable indicators; in 74 those of each record, its value, status and
// format; in 75 those of one.
#![tactic(auto)]

ghost use Rattle.std.specs.Prelude.{◌≡◌, IfSome, IfNone};
ghost use Rattle.protocol.specs.Numbers.{done};
ghost use Rattle.protocol.specs.Refusal.{refusal_number};
ghost use Rattle.protocol.specs.Bytes.{word};
ghost use Rattle.protocol.specs.Buffer.{Put, fitting};

use buslink::indicator::{BLANK, Indicator};
use buslink::{records, send, table};
use frame::buffer;
use protocol::{DONE, Refusal};

// A station, the type of a frame or the number of an indicator, and an identifier.
#[derive(Clone, Copy)]
pub struct Bus {
    pub base: u8,
    pub sub: u8,
    pub index: u8,
    pub identifier: u32,
}

// What a call comes to: its number, and how many bytes it put.
#[derive(Clone, Copy)]
pub struct Answer {
    pub number: u8,
    pub len: usize,
}

impl Answer {
    // Of a call that was refused or not.
    pub fn of(refusal: Option<Refusal>, len: usize) -> Answer
        ensures refused { IfSome refusal (λ r. result.number ≡ refusal_number r) }
        ensures done { IfNone refusal (result.number ≡ done) }
        ensures len { result.len ≡ len }
    {
        let number = match refusal {
            Some(refusal) => u8::from(refusal),
            None => DONE,
        };
        Answer { number, len }
    }
}

// A number of 32 bits, put at a place of an output, the high byte first. Returns the next place.
pub fn put_word(n: u32, out: &mut [u8], at: usize) -> usize
    ensures { Put at (fitting at (word n) out.old) out.old result out.new }
{
    buffer::put_all(&word::bytes_of(n), out, at)
}

// The data of the frame that is sent.
fn data(b: Bus, tree: &[u8], cells: &[u8], out: &mut [u8]) -> Answer {
    let sent = send::send(tree, cells, b.base, b.sub, b.index, out);
    let len = if sent.is_ok() { buslink::DATA_SIZE } else { 0 };
    Answer::of(sent.err(), len)
}

fn identifier(b: Bus, tree: &[u8], cells: &[u8], out: &mut [u8]) -> Answer {
    let sent = send::send(tree, cells, b.base, b.sub, b.index, out);
    Answer::of(sent.err(), put_word(sent.unwrap_or(0), out, 0))
}

fn receive(b: Bus, string: &[u8], lent: &mut [u8], out: &mut [u8]) -> Answer {
    let usable = table::receive(lent, b.base, b.sub, b.identifier, string);
    Answer::of(usable.err(), buffer::put_all(lent, out, 0))
}

fn usable(b: Bus, string: &[u8], lent: &mut [u8], out: &mut [u8]) -> Answer {
    let usable = table::receive(lent, b.base, b.sub, b.identifier, string);
    Answer::of(
        usable.err(),
        put_word(u32::from(usable.unwrap_or(0)), out, 0),
    )
}

// An indicator put at a place of an output: its value, status and format. Returns the next place.
fn put_indicator(i: Indicator, out: &mut [u8], at: usize) -> usize {
    let next = put_word(i.value, out, at);
    buffer::put_all(&[i.status, i.format], out, next)
}

// The records of a table as a list of them.
fn records_of(lent: &[u8]) -> [Indicator; 15] {
    let mut rs = [BLANK; 15];
    for (i, record) in rs.iter_mut().enumerate() {
        *record = table::indicator_of(lent, i as u8 + 1).unwrap_or(BLANK);
    }
    rs
}

// The number is the table's: the list of records tells none.
fn receive_list(b: Bus, string: &[u8], lent: &mut [u8], out: &mut [u8]) -> Answer {
    let rs = records::received(records_of(lent), b.base, b.sub, b.identifier, string);
    let mut len = 0;
    for record in rs.iter() {
        len = put_indicator(*record, out, len);
    }
    Answer::of(
        table::receive(lent, b.base, b.sub, b.identifier, string).err(),
        len,
    )
}

fn ask(b: Bus, lent: &[u8], out: &mut [u8]) -> Answer {
    let told = table::indicator_of(lent, b.index);
    Answer::of(told.err(), put_indicator(told.unwrap_or(BLANK), out, 0))
}

// Makes the call of a kind; none where the kind is not known.
pub fn run(
    kind: u8,
    b: Bus,
    string: &[u8],
    tree: &[u8],
    lent: &mut [u8],
    out: &mut [u8],
) -> Option<Answer> {
    let answer = match kind {
        0x70 => data(b, tree, lent, out),
        0x71 => identifier(b, tree, lent, out),
        0x72 => receive(b, string, lent, out),
        0x73 => usable(b, string, lent, out),
        0x74 => receive_list(b, string, lent, out),
        0x75 => ask(b, lent, out),
        _ => return None,
    };
    Some(answer)
}
