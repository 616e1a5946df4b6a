// Bytes fed to the stream reader: one by one from where it stands, up to the one that closes or drops a frame.
ghost use Rattle.std.specs.Prelude.{◌≡◌, ◌≤◌, Some, length};
ghost use Rattle.stream.specs.State.{standing};
ghost use Rattle.stream.specs.Feed.{run_from, fed, Feeds, fed_number, fed_length};
ghost use Rattle.stream.specs.Steps.{PlaceIs, move_of, collect_of, paired_of, outside_of, RunIs, ended_at, Behind, ReadIs};

use super::state;
use super::state::{Phase, Place};
use protocol::{DLE, ETX, MAX_CONTENT, ROOM_DATA, Refusal, STX};

// What one byte brings about: the reader goes on, or keeps the byte as content and goes on; or a frame is closed or dropped.
#[derive(Drop)]
pub(crate) enum Move {
    On(Place),
    Keep(Place),
    Closed,
    Dropped(Refusal),
}

// One content byte more.
#[tactic(auto, unfolding(crate::specs::Steps::collect_of))]
fn collect(len: usize) -> Move
    ensures { result ≡ collect_of len }
{
    if len < MAX_CONTENT {
        return Move::Keep(Place {
            phase: Phase::Inside,
            len: len + 1,
        });
    }
    Move::Dropped(Refusal::TooLong)
}

// The second byte of a pair inside a frame.
#[tactic(auto, unfolding(crate::specs::Steps::paired_of))]
fn paired(len: usize, b: u8) -> Move
    ensures { result ≡ paired_of len b }
{
    match b {
        DLE => collect(len),
        ETX => Move::Closed,
        STX => Move::On(Place {
            phase: Phase::Inside,
            len: 0,
        }),
        _ => Move::Dropped(Refusal::BadPair),
    }
}

// A byte outside a frame that does not open one: a 10h waits, also one behind another.
#[tactic(auto, unfolding(crate::specs::Steps::outside_of))]
fn outside(b: u8) -> Move
    ensures { result ≡ outside_of b }
{
    let phase = if b == DLE {
        Phase::OutsideWaiting
    } else {
        Phase::Outside
    };
    Move::On(Place { phase, len: 0 })
}

// One byte, from where the reader stands.
#[tactic(auto, unfolding(crate::specs::Steps::move_of))]
fn move_on(place: Place, b: u8) -> Move
    ensures { result ≡ move_of place.phase place.len b }
{
    let len = place.len;
    match place.phase {
        Phase::InsideWaiting => paired(len, b),
        Phase::Inside if b == DLE => Move::On(Place {
            phase: Phase::InsideWaiting,
            len,
        }),
        Phase::Inside => collect(len),
        Phase::OutsideWaiting if b == STX => Move::On(Place {
            phase: Phase::Inside,
            len: 0,
        }),
        Phase::OutsideWaiting | Phase::Outside => outside(b),
    }
}

// How a call ended: with no frame, with one closed that has so many content bytes, or with one dropped; how many bytes it took,
// and where the reader stands then.
#[derive(Drop)]
pub(crate) struct Run {
    pub end: Result<Option<usize>, Refusal>,
    pub taken: usize,
    pub place: Place,
}

// A call whose last byte closed or dropped a frame: the reader is outside, with nothing waiting.
fn ended(end: Result<Option<usize>, Refusal>, taken: usize) -> Run
    ensures { result ≡ ended_at end taken }
{
    Run {
        end,
        taken,
        place: Place {
            phase: Phase::Outside,
            len: 0,
        },
    }
}

// Bytes fed from a place until one closes or drops a frame. Content goes into the state as it comes; its first three bytes are
// left to put_place.
fn run_bytes(start: Place, bytes: &[u8], state: &mut [u8]) -> Run
    requires { PlaceIs state.old (Some start) }
    ensures { RunIs (run_from (standing state.old) state.old bytes.now) result.end result.taken result.place state.new }
{
    let mut place = start;
    for (i, b) in bytes.iter().enumerate() {
        match move_on(place, *b) {
            Move::On(next) => place = next,
            Move::Keep(kept) => {
                state[place.len + 3] = *b;
                place = kept;
            }
            Move::Closed => return ended(Ok(Some(place.len)), i + 1),
            Move::Dropped(refusal) => return ended(Err(refusal), i + 1),
        }
    }
    Run {
        end: Ok(None),
        taken: bytes.len(),
        place,
    }
}

// What a call's last byte brought about, the data of a closed frame put at the front of an output: none without a frame, 3, 4, 5,
// 6, 7 or the length of the data.
fn read_end(
    end: Result<Option<usize>, Refusal>,
    address: u8,
    state: &[u8],
    out: &mut [u8],
) -> Result<Option<usize>, Refusal>
    requires { Behind end state.now }
    ensures { ReadIs end address state.now out.old result out.new }
{
    let Some(len) = end? else {
        return Ok(None);
    };
    let last = len + 3;
    let read = frame::read::read_content(address, &state[3..last], out)?;
    Ok(Some(read))
}

// What a call of feed returns: how many bytes it took, and what became of a frame: none ended, one was dropped, or one closed, whose
// data of this length is at the front of the output.
#[derive(Drop)]
pub struct Fed {
    pub taken: usize,
    pub frame: Result<Option<usize>, Refusal>,
}

// Bytes fed to the stream reader, up to the one that closes or drops a frame: 1, 8, then what the stream rule gives.
pub fn feed(state: &mut [u8], address: u8, bytes: &[u8], out: &mut [u8]) -> Fed
    ensures { Feeds (fed address state.old bytes.now (length out.old)) out.old (fed_number result.frame) result.taken (fed_length result.frame) state.new out.new }
{
    let Some(place) = state::place_of(state) else {
        return Fed {
            taken: 0,
            frame: Err(Refusal::Unsound),
        };
    };
    if out.len() < ROOM_DATA {
        return Fed {
            taken: 0,
            frame: Err(Refusal::NoRoom),
        };
    }
    let run = run_bytes(place, bytes, state);
    state::put_place(state, run.place);
    Fed {
        taken: run.taken,
        frame: read_end(run.end, address, state, out),
    }
}
