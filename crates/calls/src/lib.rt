// A call of the library by its kind, for the program `cases`: numbers and slices in, a number and the first bytes of an output out.
#![tactic(auto)]

mod readings;
mod requests;
mod serve;
mod texts;
mod wire;

ghost use Rattle.std.specs.Prelude.{◌≤◌, IfSome, length};

pub use bus_calls::Answer;
use bus_calls::Bus;
use protocol::Refusal;

// The numbers of a call: its kind, the room for its output and the size of what is lent, and its arguments.
#[derive(Clone, Copy)]
pub struct Numbers {
    pub kind: u8,
    pub room: usize,
    pub lent: usize,
    pub address: u8,
    pub mark: u8,
    pub index: u8,
    pub value: u32,
}

// What a call that writes comes to.
fn told(written: Result<usize, Refusal>) -> Answer {
    Answer::of(written.err(), written.unwrap_or(0))
}

// Makes the call of a kind; none where the kind is not known. Each module says which numbers and slices its kinds use.
fn call(n: Numbers, string: &[u8], tree: &[u8], lent: &mut [u8], out: &mut [u8]) -> Option<Answer> {
    match n.kind {
        0x00..=0x1F => wire::run(n, string, lent, out),
        0x20..=0x2F => requests::run(n, string, out),
        0x30..=0x3F => serve::run(n, string, tree, lent, out),
        0x40..=0x4F => readings::run(n, tree, lent, out),
        0x50..=0x6F => texts::run(n, string, tree, lent, out),
        _ => {
            let bus = Bus {
                base: n.address,
                sub: n.mark,
                index: n.index,
                identifier: n.value,
            };
            bus_calls::run(n.kind, bus, string, tree, lent, out)
        }
    }
}

// The same. What it tells lies in the output.
pub fn run(
    n: Numbers,
    string: &[u8],
    tree: &[u8],
    lent: &mut [u8],
    out: &mut [u8],
) -> Option<Answer>
    ensures { IfSome result (λ answer. answer.len ≤ length out.new) }
{
    let answer = call(n, string, tree, lent, out)?;
    if out.len() < answer.len {
        return None;
    }
    Some(answer)
}
