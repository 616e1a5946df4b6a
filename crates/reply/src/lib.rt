// What a reply holds behind the data of its request, and what a write does. Each part is put at a place of an output, as far as
// there is room, and the next place is returned.
#![tactic(auto)]

pub mod write;

ghost use Rattle.std.specs.Prelude.{◌≡◌};
ghost use Rattle.protocol.specs.Bytes.{text};
ghost use Rattle.protocol.specs.Buffer.{fitting, Put};
ghost use Rattle.protocol.specs.Tree.{property_in};
ghost use Rattle.protocol.specs.Answer.{reason, node_body, record_body, read_body, write_body};
ghost use Rattle.tree.specs.Seen.{seen};
ghost use Rattle.tree.specs.Lookup.{numbers_of};
ghost use Rattle.reply.specs.Outcome.{meaning};
ghost use Rattle.reply.specs.Steps.{numbers_in};

use frame::buffer;
use protocol::{Op, STATUS_OK};
use tree::record;
use tree::record::Fields;
use write::Outcome;

// Op 1: how many children and properties, and the name.
pub fn put_node(tree: &[u8], node: usize, out: &mut [u8], at: usize) -> usize
    ensures { Put at (fitting at (node_body (seen tree.now) node) out.old) out.old result out.new }
{
    let counts = [lookup::children(tree, node), lookup::properties(tree, node)];
    let named = buffer::put_all(&counts, out, at);
    record::put_name(tree, node, out, named)
}

// The numbers of a record.
fn numbers(f: Fields) -> [u8; 13]
    ensures { result ≡ numbers_in (numbers_of f) }
{
    let [a, b, c, d] = word::bytes_of(f.min);
    let [e, g, h, i] = word::bytes_of(f.max);
    let [j, k] = word::half_bytes_of(f.attribute);
    let [m, n] = word::half_bytes_of(f.format);
    [f.kind, a, b, c, d, e, g, h, i, j, k, m, n]
}

// Op 2: the property's numbers and texts.
pub fn put_record(tree: &[u8], place: usize, out: &mut [u8], at: usize) -> usize
    ensures { Put at (fitting at (record_body (property_in (seen tree.now) place)) out.old) out.old result out.new }
{
    let described = buffer::put_all(&numbers(record::read_fields(tree, place)), out, at);
    record::put_record_texts(tree, place, out, described)
}

// A status and a word.
fn reading(n: u32) -> [u8; 5]
    ensures { result ≡ read_body n }
{
    let [a, b, c, d] = word::bytes_of(n);
    [STATUS_OK, a, b, c, d]
}

// Op 3: the word.
pub fn put_reading(n: u32, out: &mut [u8], at: usize) -> usize
    ensures { Put at (fitting at (read_body n) out.old) out.old result out.new }
{
    buffer::put_all(&reading(n), out, at)
}

// The text of op 5, with its zero.
#[tactic(auto, unfolding(protocol::specs::Bytes::text, protocol::specs::Answer::reason))]
fn reason(o: Outcome) -> &'static [u8]
    ensures { result.now ≡ text (reason (meaning o)) }
{
    match o {
        Outcome::Saved | Outcome::Taken => b"\0",
        Outcome::ReadOnly => b"Read only\0",
        Outcome::OutOfRange => b"Range\0",
        Outcome::OffStep => b"Step\0",
    }
}

// Ops 4 and 5: the save byte, and for op 5 the text.
pub fn put_written(o: Outcome, op: u8, out: &mut [u8], at: usize) -> usize
    ensures { Put at (fitting at (write_body (meaning o) op) out.old) out.old result out.new }
{
    let save = [write::save_byte(o)];
    let saved = buffer::put_all(&save, out, at);
    if op == u8::from(Op::Write) {
        return saved;
    }
    buffer::put_all(reason(o), out, saved)
}
