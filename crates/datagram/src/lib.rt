// PENKO's TP over UDP: datagrams, checked and written.
#![tactic(auto)]

ghost use Rattle.std.specs.Prelude.{◌≡◌, IfOk, length};
ghost use Rattle.protocol.specs.Numbers.{room_udp};
ghost use Rattle.protocol.specs.Refusal.{number_told, length_told};
ghost use Rattle.protocol.specs.Frame.{read_datagram, write_datagram, if_room};
ghost use Rattle.protocol.specs.Buffer.{Emits};

use frame::{buffer, size};
use protocol::{ROOM_UDP, Refusal};

// The data of a datagram, which is that part of the datagram itself from byte 4 on: 2, 4, 5 or the data.
pub fn payload_of(d: &[u8]) -> Result<&[u8], Refusal>
    ensures number { number_told result ≡ (read_datagram d.now).number }
    ensures payload { IfOk result (λ p. p.now ≡ (read_datagram d.now).payload) }
{
    let Some(payload) = d.strip_prefix(&[0; 4]) else {
        return Err(Refusal::NoPreamble);
    };
    size::check_size(payload.len())?;
    Ok(payload)
}

// The same; of a refused datagram an empty part.
pub fn data_of(d: &[u8]) -> &[u8]
    ensures { result.now ≡ (read_datagram d.now).payload }
{
    payload_of(d).unwrap_or(&d[..0])
}

// Data in a datagram: 8, 4, 5 or the length of the datagram.
pub fn write_datagram(payload: &[u8], out: &mut [u8]) -> Result<usize, Refusal>
    ensures { Emits (if_room room_udp (length out.old) (write_datagram payload.now)) out.old (number_told result) (length_told result) out.new }
{
    if out.len() < ROOM_UDP {
        return Err(Refusal::NoRoom);
    }
    size::check_size(payload.len())?;
    let at = buffer::put_all(&[0; 4], out, 0);
    Ok(buffer::put_all(payload, out, at))
}
