// The state that a caller lends: where the reader stands, read from its first bytes and put into them.
ghost use Rattle.std.specs.Prelude.{◌≡◌, ◌≤◌, ◌∷◌, ◌++◌, length, drop};
ghost use Rattle.protocol.specs.Bytes.{half};
ghost use Rattle.stream.specs.Steps.{phase_number, IsPhase, most_of, PlaceIs};

use protocol::MAX_CONTENT;

// The length of a stream state (docs/FORMATS.md).
pub const STATE_LEN: usize = 261;

// Whether a reader is inside a frame, and whether a 10h waits for the other byte of its pair. The numbers are those of a state's first
// byte (docs/FORMATS.md).
#[derive(Clone, Copy)]
pub(crate) enum Phase {
    Outside = 0,
    OutsideWaiting = 1,
    Inside = 2,
    InsideWaiting = 3,
}

impl From<Phase> for u8 {
    ghost from_gives = { λ phase n. n ≡ phase_number phase };

    fn from(phase: Phase) -> u8 {
        phase as u8
    }
}

// The phase of a number.
fn phase_of(n: u8) -> Option<Phase>
    ensures { IsPhase n result }
{
    match n {
        0 => Some(Phase::Outside),
        1 => Some(Phase::OutsideWaiting),
        2 => Some(Phase::Inside),
        3 => Some(Phase::InsideWaiting),
        _ => None,
    }
}

// How many content bytes a reader may have: outside a frame none.
fn most_content(phase: Phase) -> usize
    ensures { result ≡ most_of phase }
{
    match phase {
        Phase::Outside | Phase::OutsideWaiting => 0,
        Phase::Inside | Phase::InsideWaiting => MAX_CONTENT,
    }
}

// Where a reader stands: the phase, and how many content bytes it has.
#[derive(Clone, Copy)]
pub(crate) struct Place {
    pub phase: Phase,
    pub len: usize,
}

// Where a lent state says that the reader stands; none where it has no form. A look at its length and its first three bytes.
pub(crate) fn place_of(state: &[u8]) -> Option<Place>
    ensures { PlaceIs state.now result }
{
    if state.len() != STATE_LEN {
        return None;
    }
    let phase = phase_of(state[0])?;
    // A length up to 258 has 0 or 1 here.
    let high = usize::from(state[1]);
    if 1 < high {
        return None;
    }
    let len = high * 256 + usize::from(state[2]);
    if most_content(phase) < len {
        return None;
    }
    Some(Place { phase, len })
}

// The first three bytes of a state, for a place.
pub(crate) fn put_place(state: &mut [u8], place: Place)
    requires { (3 ≤ length state.old) × (place.len ≤ 258) }
    ensures { state.new ≡ phase_number place.phase ∷ (half place.len ++ drop 3 state.old) }
{
    let [high, low] = word::half_bytes_of(place.len as u16);
    state[0] = u8::from(place.phase);
    state[1] = high;
    state[2] = low;
}
