// A property's numbers, and the texts of nodes and properties.
ghost use Rattle.std.specs.Prelude.{◌≡◌, ◌+◌, ◌*◌, ◌<◌, ◌≤◌, ◌^◌, [], length, get_or};
ghost use Rattle.std.specs.Option.{ForSome};
ghost use Rattle.protocol.specs.Numbers.{bit_read, bit_write, bit_live, bit_signed};
ghost use Rattle.protocol.specs.Bytes.{bit, text, ordered, at_most};
ghost use Rattle.protocol.specs.Buffer.{Put, fitting};
ghost use Rattle.protocol.specs.Tree.{node_in, property_in, step_code};
ghost use Rattle.protocol.specs.Answer.{record_texts};
ghost use Rattle.tree.specs.Form.{property_size, properties_start};
ghost use Rattle.tree.specs.Seen.{property_seen, seen, node_count, property_count, option_count};
ghost use Rattle.tree.specs.Steps.{PlaceIs, entries};
ghost use Rattle.tree.specs.Lookup.{FieldsAre, NextWhere, numbers_of};

use super::{NODE_SIZE, PROPERTY_SIZE, bytes, part, texts};
use protocol::{BIT_LIVE, BIT_READ, BIT_SIGNED, BIT_STEP, BIT_WRITE, ENUMERATION, STEP_MASK};

// What a property's record holds beside its texts.
#[derive(Clone, Copy, Default)]
pub struct Fields {
    pub node: u8,
    pub kind: u8,
    pub min: u32,
    pub max: u32,
    pub attribute: u16,
    pub format: u16,
}

impl Fields {
    pub fn can_read(self) -> bool
        ensures { result ≡ bit bit_read self.attribute }
    {
        (self.attribute >> BIT_READ) % 2 == 1
    }

    pub fn can_write(self) -> bool
        ensures { result ≡ bit bit_write self.attribute }
    {
        (self.attribute >> BIT_WRITE) % 2 == 1
    }

    pub fn is_live(self) -> bool
        ensures { result ≡ bit bit_live self.attribute }
    {
        (self.attribute >> BIT_LIVE) % 2 == 1
    }

    pub fn is_signed(self) -> bool
        ensures { result ≡ bit bit_signed self.format }
    {
        (self.format >> BIT_SIGNED) % 2 == 1
    }

    pub fn step_code(self) -> u16
        ensures { result ≡ step_code (numbers_of self) }
    {
        (self.format >> BIT_STEP) & STEP_MASK
    }
}

// A word as it is compared: of a signed one the sign bit is turned over.
#[tactic(auto, unfolding(protocol::specs::Bytes::ordered))]
pub(crate) fn ordered_word(signed: bool, n: u32) -> u32
    ensures { result ≡ ordered signed n }
{
    if signed {
        return n.wrapping_add(1 << 31);
    }
    n
}

// Whether one word is at most another, signed or not.
pub fn at_most(signed: bool, m: u32, n: u32) -> bool
    ensures { result ≡ at_most signed m n }
{
    ordered_word(signed, m) <= ordered_word(signed, n)
}

// How many nodes there are.
pub fn node_count(tree: &[u8]) -> usize
    ensures { result ≡ length (seen tree.now).nodes }
{
    usize::from(bytes::byte_at(tree, 0))
}

// How many properties there are.
pub fn property_count(tree: &[u8]) -> usize
    ensures { result ≡ length (seen tree.now).properties }
{
    usize::from(bytes::byte_at(tree, 1))
}

// Where the property records begin.
pub fn properties_start(tree: &[u8]) -> usize
    ensures { result ≡ properties_start (get_or tree.now 0 0) }
{
    2 + usize::from(bytes::byte_at(tree, 0)) * NODE_SIZE
}

// How many texts are the unit or options.
#[tactic(auto, unfolding(crate::specs::Seen::option_count))]
pub fn option_count(kind: u8, max: u32) -> usize
    ensures { result ≡ option_count kind max }
{
    if kind == ENUMERATION {
        return (max % 16) as usize + 1;
    }
    1
}

// The numbers in a property's record, which begins some bytes.
fn fields_of(bs: &[u8]) -> Fields
    requires { property_size ≤ length bs.now }
    ensures { FieldsAre (property_seen [] bs.now) result }
{
    Fields {
        node: bs[0],
        kind: bs[1],
        min: word::word_of(bs[2], bs[3], bs[4], bs[5]),
        max: word::word_of(bs[6], bs[7], bs[8], bs[9]),
        attribute: word::half_of(bs[10], bs[11]),
        format: word::half_of(bs[12], bs[13]),
    }
}

// The record at a place of a tree whose bytes end in it or before it: behind them stand zeros.
fn cut_record(tree: &[u8], at: usize) -> [u8; PROPERTY_SIZE]
    requires { (at < 2 ^ 32) × (length tree.now < at + property_size) }
    ensures { result ≡ entries at property_size tree.now }
{
    let mut cut = [0u8; PROPERTY_SIZE];
    if let Some(rest) = tree.get(at..) {
        cut[..rest.len()].copy_from_slice(rest);
    }
    cut
}

// Where a property's record begins; nothing where there is no such property.
pub(crate) fn record_place(tree: &[u8], place: usize) -> Option<usize>
    ensures place { PlaceIs (property_count tree.now) place (properties_start (node_count tree.now) + place * property_size) result }
    ensures near { ForSome result (λ at. at < 65536) }
{
    if place < usize::from(bytes::byte_at(tree, 1)) {
        return Some(properties_start(tree) + place * PROPERTY_SIZE);
    }
    None
}

// The numbers of the property at a place; all 0 where there is none.
pub fn read_fields(tree: &[u8], place: usize) -> Fields
    ensures { FieldsAre (property_in (seen tree.now) place) result }
{
    let Some(at) = record_place(tree, place) else {
        return Fields::default();
    };
    if at + PROPERTY_SIZE <= tree.len() {
        return fields_of(&tree[at..]);
    }
    let cut = cut_record(tree, at);
    fields_of(&cut[..])
}

// The place of the next property whose numbers pass a test, from a place on; behind the last property where there is none.
pub fn next_where<F: Fn(Fields) -> bool>(tree: &[u8], from: usize, test: F) -> usize
    requires { F.IsAlwaysCallable test }
    ensures { NextWhere (F.post test) (seen tree.now) from result }
{
    let count = property_count(tree);
    for k in from..count {
        if test(read_fields(tree, k)) {
            return k;
        }
    }
    from.max(count)
}

// A node's name, with the zero that ends it, put at a place of an output, as far as there is room. Returns the next place.
pub fn put_name(tree: &[u8], node: usize, out: &mut [u8], at: usize) -> usize
    ensures { Put at (fitting at (text (node_in (seen tree.now) node).name) out.old) out.old result out.new }
{
    let from = part::name_place(tree, node).unwrap_or(tree.len());
    texts::put_texts(tree, from, 1, out, at)
}

// A property's label and its unit or options, each with its zero, likewise.
pub fn put_record_texts(tree: &[u8], place: usize, out: &mut [u8], at: usize) -> usize
    ensures { Put at (fitting at (record_texts (property_in (seen tree.now) place)) out.old) out.old result out.new }
{
    let Some(record) = record_place(tree, place) else {
        return texts::put_texts(tree, tree.len(), 1, out, at);
    };
    let count = option_count(
        bytes::byte_at(tree, record + 1),
        bytes::word_at(tree, record + 6),
    );
    let from = usize::from(bytes::half_at(tree, record + 14));
    texts::put_texts(tree, from, count + 1, out, at)
}
