// What a call that writes a text of any length comes to where it writes none.
ghost use Rattle.std.specs.Prelude.{◌≡◌};
ghost use Rattle.text.specs.Unwritten.{unwritten_number};

use protocol::Refusal;

// A refusal, or too little room: how long the text is.
#[derive(Clone, Copy, Debug, PartialEq, Eq)]
pub enum Unwritten {
    Refused(Refusal),
    NoRoom(usize),
}

impl From<Refusal> for Unwritten {
    ghost use Rattle.text.specs.declared.unwritten.Unwritten.TheVariants.{Refused};

    ghost from_gives = { λ r u. u ≡ Refused r };

    fn from(refusal: Refusal) -> Unwritten {
        Unwritten::Refused(refusal)
    }
}

impl From<Unwritten> for u8 {
    ghost from_gives = { λ u n. n ≡ unwritten_number u };

    fn from(unwritten: Unwritten) -> u8 {
        match unwritten {
            Unwritten::Refused(refusal) => u8::from(refusal),
            Unwritten::NoRoom(_) => u8::from(Refusal::NoRoom),
        }
    }
}
