// Lines: a key, "=", a value, and the 0Ah that ends it.
ghost use Rattle.std.specs.Prelude.{ℕ, List};
ghost use Rattle.protocol.specs.Signed.{number_of, numeral};
ghost use Rattle.protocol.specs.Text.{hex, decimal, dotted, line};
ghost use Rattle.text.specs.Lays.{Lays};

use super::number;
use super::output::Output;

// What may stand behind "=" in a line.
pub trait Value {
    // What is put of it.
    ghost shown: { Self → List ℕ };

    fn put(self, output: &mut Output)
        ensures { Lays (shown self) output.old output.new };
}

// A text, as it is.
impl<'a> Value for &'a [u8] {
    ghost shown = { λ text. text.now };

    fn put(self, output: &mut Output) {
        output.put_all(self);
    }
}

// A number in decimal.
impl Value for u32 {
    ghost shown = { λ n. decimal n };

    fn put(self, output: &mut Output) {
        number::put_decimal(self, output);
    }
}

// A word in decimal, signed or not.
#[derive(Clone, Copy)]
pub struct Word {
    pub signed: bool,
    pub word: u32,
}

impl Value for Word {
    ghost shown = { λ w. numeral (number_of w.signed w.word) };

    fn put(self, output: &mut Output) {
        number::put_word(self.signed, self.word, output);
    }
}

// A path, dotted.
#[derive(Clone, Copy)]
pub struct Dotted<'a>(pub &'a [u8]);

impl<'a> Value for Dotted<'a> {
    ghost shown = { λ path. dotted path.0.now };

    fn put(self, output: &mut Output) {
        number::put_dotted(self.0, output);
    }
}

// Bytes in hex.
#[derive(Clone, Copy)]
pub struct Hex<'a>(pub &'a [u8]);

impl<'a> Value for Hex<'a> {
    ghost shown = { λ bs. hex bs.0.now };

    fn put(self, output: &mut Output) {
        number::put_hex(self.0, output);
    }
}

impl<'a> Output<'a> {
    // A line.
    pub fn put_line<V: Value>(&mut self, key: &[u8], value: V)
        ensures { Lays (line key.now (V.shown value)) self.old self.new }
    {
        self.put_all(key);
        self.put_all(b"=");
        value.put(self);
        self.put_all(b"\n");
    }
}
