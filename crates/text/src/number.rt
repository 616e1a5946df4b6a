// Numbers in decimal, paths, and bytes in hex.
ghost use Rattle.std.specs.Prelude.{◌≡◌, ◌<◌};
ghost use Rattle.protocol.specs.Signed.{number_of, numeral};
ghost use Rattle.protocol.specs.Text.{hex_digit, hex_byte, hex, decimal, dotted};
ghost use Rattle.text.specs.Lays.{Lays};

use super::output::Output;

// The highest word that is no number below zero.
const HIGHEST: u32 = 0x7FFF_FFFF;

// A number in decimal, with no leading zero.
pub fn put_decimal(n: u32, output: &mut Output)
    ensures { Lays (decimal n) output.old output.new }
{
    if 10 <= n {
        put_decimal(n / 10, output);
    }
    output.put_all(&[b'0' + (n % 10) as u8]);
}

// A word in decimal, signed or not, with a minus only where it is below zero.
pub fn put_word(signed: bool, w: u32, output: &mut Output)
    ensures { Lays (numeral (number_of signed w)) output.old output.new }
{
    if !signed || w <= HIGHEST {
        put_decimal(w, output);
        return;
    }
    output.put_all(b"-");
    put_decimal(w.wrapping_neg(), output);
}

// A path, dotted.
pub fn put_dotted(path: &[u8], output: &mut Output)
    ensures { Lays (dotted path.now) output.old output.new }
{
    let Some((first, others)) = path.split_first() else {
        return;
    };
    put_decimal(u32::from(*first), output);
    for n in others {
        output.put_all(b".");
        put_decimal(u32::from(*n), output);
    }
}

// The upper-case hex digit of a number below 16.
fn hex_digit(n: u8) -> u8
    requires { n < 16 }
    ensures { result ≡ hex_digit n }
{
    if n < 10 {
        return b'0' + n;
    }
    b'A' - 10 + n
}

// A byte in two hex digits.
pub fn hex_byte(b: u8) -> [u8; 2]
    ensures { result ≡ hex_byte b }
{
    [hex_digit(b / 16), hex_digit(b % 16)]
}

// Bytes in hex.
pub fn put_hex(bs: &[u8], output: &mut Output)
    ensures { Lays (hex bs.now) output.old output.new }
{
    for b in bs {
        output.put_all(&hex_byte(*b));
    }
}
