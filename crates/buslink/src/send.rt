// A station's frames.
ghost use Rattle.std.specs.Prelude.{◌≡◌, ◌+◌, length};
ghost use Rattle.protocol.specs.Refusal.{number_told};
ghost use Rattle.tree.specs.Seen.{seen};
ghost use Rattle.cells.specs.Cells.{cells_in};
ghost use Rattle.buslink.specs.Receive.{place_of};
ghost use Rattle.buslink.specs.Send.{first_of, indicator_of, data_of, send_in, Sends, identifier_told};
ghost use Rattle.buslink.specs.Steps.{ProbeAt};

use super::identifier::{FrameType, Station};
use super::indicator::{BLANK, Indicator};
use super::{DATA_SIZE, probe};
use cells::lent::{self, Lent};
use protocol::Refusal;
use tree::{live, record};

// The second indicator of a frame, by the place of the first one's probe: all zero in the last type, and where there is no probe.
fn second(lent: Lent, kind: FrameType, first: usize) -> Indicator
    requires { ProbeAt (seen lent.tree.now) (place_of kind.number) first }
    ensures { result ≡ indicator_of (seen lent.entry.tree.now) (cells_in lent.entry.cells.now) (first_of kind.number + 1) }
{
    if kind.is_last() {
        return BLANK;
    }
    if record::property_count(lent.tree) <= first {
        return BLANK;
    }
    probe::indicator_at(lent, live::next(lent.tree, first + 1))
}

// The data of a frame of a type.
fn data_of(lent: Lent, kind: FrameType) -> [u8; 8]
    ensures { result ≡ data_of (seen lent.entry.tree.now) (cells_in lent.entry.cells.now) kind.number }
{
    let place = probe::place_after(lent.tree, kind.place());
    let [a, b, c, d] = probe::indicator_at(lent, place).to_bytes();
    let [e, f, g, h] = second(lent, kind, place).to_bytes();
    [a, b, c, d, e, f, g, h]
}

// A station's frame of a type, put at the front of an output: 1, 8, 19, or 0 with its identifier.
pub fn send(
    tree: &[u8],
    cells: &[u8],
    base: u8,
    sub: u8,
    kind: u8,
    out: &mut [u8],
) -> Result<u32, Refusal>
    ensures { Sends (send_in tree.now cells.now base sub kind (length out.old)) out.old (number_told result) (identifier_told result) out.new }
{
    let lent = lent::lend(tree, cells)?;
    if out.len() < DATA_SIZE {
        return Err(Refusal::NoRoom);
    }
    let station = Station::at(base, sub)?;
    let kind = FrameType::try_from(kind)?;
    out[..DATA_SIZE].copy_from_slice(&data_of(lent, kind));
    Ok(station.identifier(kind))
}
