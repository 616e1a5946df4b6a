// Text read at the front of some bytes: a key, digits, a number with the 0Ah that ends it.
ghost use Rattle.std.specs.Prelude.{◌≡◌, true, false, cond, not, ◌&&◌, ◌+◌, ◌^◌, ◌<◌, get_or, eqb};
ghost use Rattle.protocol.specs.Numbers.{word_end};
ghost use Rattle.protocol.specs.Text.{begins};
ghost use Rattle.protocol.specs.Signed.{digits_in, value, is_numeral, is_number, number_in, number_size};
ghost use Rattle.text.specs.Read.{Adds, DigitsAre, ToldIs, told_of, at_most, negated, number};

const MINUS: u8 = b'-';

const ZERO: u8 = b'0';

const NEWLINE: u8 = b'\n';

// The size of the lowest signed word, one more than that of the highest.
const LOWEST: u32 = 0x8000_0000;

// Whether a text stands at the front.
pub fn begins(front: &[u8], bs: &[u8]) -> bool
    ensures { result ≡ begins front.now bs.now }
{
    bs.starts_with(front)
}

// A number with one digit more, if it is one of 32 bits.
fn more(so_far: Option<u32>, d: u8) -> Option<u32>
    ensures { Adds so_far d result }
{
    so_far?.checked_mul(10)?.checked_add(u32::from(d))
}

// The digits at the front: how many there are, and their number, if it is one of 32 bits.
#[derive(Clone, Copy)]
struct Digits {
    len: usize,
    number: Option<u32>,
}

fn read_digits(bs: &[u8]) -> Digits
    ensures { DigitsAre bs.now result }
{
    let mut number = Some(0);
    for (len, c) in bs.iter().enumerate() {
        if !c.is_ascii_digit() {
            return Digits { len, number };
        }
        number = more(number, c - ZERO);
    }
    Digits {
        len: bs.len(),
        number,
    }
}

// Whether the digits at the front, so many, are a number in decimal that 0Ah ends: one or more, with no leading zero.
fn is_numeral(bs: &[u8], len: usize) -> bool
    requires { len ≡ digits_in bs.now }
    ensures { result ≡ is_numeral bs.now }
{
    if len == 0 {
        return false;
    }
    if bs.len() <= len {
        return false;
    }
    if bs[len] != NEWLINE {
        return false;
    }
    if bs[0] != ZERO {
        return true;
    }
    len == 1
}

// A number that was read: the word that holds it, if it is one of 32 bits, and how many bytes it takes with its 0Ah.
#[derive(Clone, Copy)]
pub struct Numeral {
    pub word: Option<u32>,
    pub size: usize,
}

// The highest word, signed or not.
fn highest(signed: bool) -> u32
    ensures { result + 1 ≡ cond signed (2 ^ 31) word_end }
{
    if signed {
        return LOWEST - 1;
    }
    u32::MAX
}

// A number that was read, if it is at most another.
fn at_most(number: Option<u32>, most: u32) -> Option<u32>
    ensures { result ≡ at_most number most }
{
    number.filter(|n| *n <= most)
}

// The word of a number below zero.
fn negated(size: Option<u32>) -> Option<u32>
    ensures { result ≡ negated size }
{
    size.map(|n| n.wrapping_neg())
}

// A number with no sign.
fn plain(signed: bool, bs: &[u8]) -> Option<Numeral>
    ensures { ToldIs (is_numeral bs.now) signed (number false (value bs.now)) (1 + digits_in bs.now) (told_of result) }
{
    let d = read_digits(bs);
    if !is_numeral(bs, d.len) {
        return None;
    }
    Some(Numeral {
        word: at_most(d.number, highest(signed)),
        size: d.len + 1,
    })
}

// A number behind its minus sign, which is no 0.
fn below_zero(bs: &[u8]) -> Option<Numeral>
    ensures { ToldIs (is_numeral bs.now && not (eqb (get_or bs.now 0 0) 48)) true (number true (value bs.now)) (2 + digits_in bs.now) (told_of result) }
{
    let d = read_digits(bs);
    if !is_numeral(bs, d.len) {
        return None;
    }
    if bs[0] == ZERO {
        return None;
    }
    Some(Numeral {
        word: negated(at_most(d.number, LOWEST)),
        size: d.len + 2,
    })
}

// A number, signed or not, and the 0Ah that ends it.
pub fn read_number(signed: bool, bs: &[u8]) -> Option<Numeral>
    ensures { ToldIs (is_number signed bs.now) signed (number_in bs.now) (number_size bs.now) (told_of result) }
{
    let (sign, rest) = bs.split_first()?;
    if *sign != MINUS {
        return plain(signed, bs);
    }
    if !signed {
        return None;
    }
    below_zero(rest)
}
