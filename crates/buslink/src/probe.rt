// The probes of a tree, each as the indicator that is sent for it.
ghost use Rattle.std.specs.Prelude.{◌≡◌};
ghost use Rattle.protocol.specs.Signed.{number_of};
ghost use Rattle.tree.specs.Seen.{seen};
ghost use Rattle.cells.specs.Cells.{cells_in};
ghost use Rattle.buslink.specs.Send.{scaled, valued, probe_indicator};
ghost use Rattle.buslink.specs.Steps.{NumberIs, ValueIs, ProbeAt};

use super::indicator::{AVAILABLE, BLANK, ERROR, Indicator, RAW};
use cells::cell;
use cells::lent::Lent;
use tree::{live, range, record};

// The number of a word, signed or not. Without a sign, from 2^31, there is none: it is beyond 24 bits either way.
fn number_in(signed: bool, w: u32) -> Option<i32>
    ensures { NumberIs (number_of signed w) result }
{
    if !signed && 0x8000_0000 <= w {
        return None;
    }
    Some(word::signed(w))
}

// Its value, if it is one of 24 bits: ten times the number, but for raw data. Ten times 838860 is, with either sign, and ten times
// more is not.
fn value_in(code: u8, signed: bool, w: u32) -> Option<i32>
    ensures { ValueIs (scaled code (number_of signed w)) result }
{
    let number = number_in(signed, w)?;
    if code == RAW {
        return match number {
            -0x80_0000..=0x7F_FFFF => Some(number),
            _ => None,
        };
    }
    match number {
        -838_860..=838_860 => Some(number * 10),
        _ => None,
    }
}

// A word as it is sent. Beyond 24 bits it is 0, with AVAILABLE and ERROR.
fn of_word(code: u8, signed: bool, w: u32) -> Indicator
    ensures { result ≡ valued code (scaled code (number_of signed w)) }
{
    match value_in(code, signed, w) {
        Some(value) => Indicator {
            value: value.cast_unsigned(),
            status: AVAILABLE,
            format: code,
        },
        None => Indicator {
            status: AVAILABLE | ERROR,
            format: code,
            ..BLANK
        },
    }
}

// What is sent for the live property at a place; all zero where there is no property. Whether it has a reading comes first: no
// other word is looked at.
pub(crate) fn indicator_at(lent: Lent, place: usize) -> Indicator
    ensures { result ≡ probe_indicator (seen lent.entry.tree.now) (cells_in lent.entry.cells.now) place }
{
    let f = record::read_fields(lent.tree, place);
    let code = (f.format & 7) as u8;
    match cell::reading(lent.tree, lent.cells, place) {
        Some(w) => of_word(code, range::takes_sign(f), w),
        None => Indicator {
            format: code,
            ..BLANK
        },
    }
}

// The place of the live property with so many before it; behind the last property where there is none.
pub(crate) fn place_after(tree: &[u8], before: usize) -> usize
    ensures { ProbeAt (seen tree.now) before result }
{
    let count = record::property_count(tree);
    let mut k = live::next(tree, 0);
    for _passed in 0..before {
        if count <= k {
            return k;
        }
        k = live::next(tree, k + 1);
    }
    k
}
