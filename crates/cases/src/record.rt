// The fields of a case, in the form that is described in main.rt.
ghost use Rattle.std.specs.Prelude.{◌<◌, ◌≤◌, IfSome, length};

// The fields of a case as they stand in a text, and the text behind it.
#[derive(Clone, Copy)]
pub(crate) struct Case<'a> {
    pub name: &'a [u8],
    pub numbers: &'a [u8],
    pub string: &'a [u8],
    pub tree: &'a [u8],
    pub lent: &'a [u8],
    pub behind: &'a [u8],
}

// The field at the front of a text, which ends at a character, and what stands behind that.
fn split(text: &[u8], ending: u8) -> Option<(&[u8], &[u8])>
    ensures { IfSome result (λ parts. length parts.1.now < length text.now) }
{
    let end = text.iter().position(|c| *c == ending)?;
    Some((&text[..end], &text[end + 1..]))
}

// The case at the front of a text.
pub(crate) fn first(text: &[u8]) -> Option<Case>
    ensures { IfSome result (λ case. length case.behind.now < length text.now) }
{
    let (name, text) = split(text, b'|')?;
    let (numbers, text) = split(text, b'|')?;
    let (string, text) = split(text, b'|')?;
    let (tree, text) = split(text, b'|')?;
    let (lent, behind) = split(text, b'\n')?;
    Some(Case {
        name,
        numbers,
        string,
        tree,
        lent,
        behind,
    })
}

// The number of a hex digit.
fn hex_number(c: u8) -> Option<u8>
    ensures { IfSome result (λ n. n < 16) }
{
    match c {
        b'0'..=b'9' => Some(c - b'0'),
        b'A'..=b'F' => Some(c - b'A' + 10),
        _ => None,
    }
}

// The byte of two hex digits.
fn hex_byte(high: u8, low: u8) -> Option<u8> {
    let h = hex_number(high)?;
    let l = hex_number(low)?;
    Some(h * 16 + l)
}

// The bytes that a text has in hex, put into a buffer: how many there are. None where the text is not hex or the buffer is too small.
pub(crate) fn put_bytes(text: &[u8], out: &mut [u8]) -> Option<usize>
    ensures { IfSome result (λ n. n ≤ length out.new) }
{
    let n = text.len() / 2;
    if text.len() % 2 == 1 {
        return None;
    }
    if out.len() < n {
        return None;
    }
    for i in 0..n {
        out[i] = hex_byte(text[2 * i], text[2 * i + 1])?;
    }
    Some(n)
}
