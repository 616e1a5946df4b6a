// The C interface of the box (include/pualirqiq.h), as functions of Rattle: every call on numbers and byte slices, thin over the crates
// below. The crate `pualirqiq_c` exports them.
#![tactic(auto)]

ghost use Rattle.std.specs.Prelude.{◌≡◌, length, eqb};
ghost use Rattle.protocol.specs.Numbers.{room_data, room_serial, room_udp};
ghost use Rattle.protocol.specs.Refusal.{number_told};
ghost use Rattle.protocol.specs.Frame.{if_room, read_frame, read_datagram, write_frame, write_datagram};
ghost use Rattle.protocol.specs.Buffer.{Emits, Fills};
ghost use Rattle.protocol.specs.Request as rule;
ghost use Rattle.protocol.specs.Request.{request_of, read_serial, read_udp, serial_form, udp_form};
ghost use Rattle.stream.specs.State.{state_length};
ghost use Rattle.stream.specs.Feed.{fed, fed_number, fed_length, Feeds};
ghost use Rattle.text.specs.Unwritten.{number_written, length_written};
ghost use Rattle.listing.specs.Lists.{Lists};
ghost use Rattle.request.specs.Asked.{AskedIs};
ghost use Rattle.compose.specs.Write.{write_request};
ghost use Rattle.cells.specs.Lent.{lent_number, Updates, post_in, restore_in, Reads, read_in};
ghost use Rattle.sheet.specs.Sheets.{written, load_in};
ghost use Rattle.answer.specs.Reply.{outcome_number, outcome_action, outcome_missing, served_number, served_length, served_action, served_missing};
ghost use Rattle.answer.specs.Serve.{serve_data, serve_serial, serve_udp, Serves};
ghost use Rattle.buslink.specs.Send.{send_in, Sends};
ghost use Rattle.buslink.specs.Receive.{table_size, is_table, receive_table, Receives, told_in};
ghost use Rattle.pualirqiq.specs.Calls.{truth, value_told, ReadIs, Zeroes, Tells, is_state_sized, cells_size, is_cells_sized, tree_number, handed, HandsBack, Locates};

use answer::{Failure, Reply};
use protocol::{DONE, NO_ACTION, NO_FRAME, PropertyIndex, Refusal};
use request::Request;
use text::unwritten::Unwritten;

// How long a stream state is.
pub fn pq_state_size() -> usize
    ensures { result ≡ state_length }
{
    stream::state::STATE_LEN
}

// The number of what a call comes to: 0, or that of its refusal.
fn number_of<T: Drop>(outcome: Result<T, Refusal>) -> u8
    ensures { result ≡ number_told outcome }
{
    match outcome {
        Ok(_) => DONE,
        Err(refusal) => refusal.into(),
    }
}

// The number of what a call comes to, and its value: with a refusal, the one that stands for none.
fn tell<T: Copy>(outcome: Result<T, Refusal>, nothing: T, value: &mut T) -> u8
    ensures number { result ≡ number_told outcome }
    ensures value { value.new ≡ value_told nothing outcome }
{
    match outcome {
        Ok(told) => {
            *value = told;
            DONE
        }
        Err(refusal) => {
            *value = nothing;
            refusal.into()
        }
    }
}

// The same of a text, whose length is told where there is no room for it too.
fn tell_text(written: Result<usize, Unwritten>, len: &mut usize) -> u8
    ensures number { result ≡ number_written written }
    ensures len { len.new ≡ length_written written }
{
    match written {
        Ok(size) => {
            *len = size;
            DONE
        }
        Err(Unwritten::NoRoom(size)) => {
            *len = size;
            Refusal::NoRoom.into()
        }
        Err(Unwritten::Refused(refusal)) => {
            *len = 0;
            refusal.into()
        }
    }
}

// What a call of the stream reader comes to: 255 where no frame ended.
fn tell_frame(frame: Result<Option<usize>, Refusal>, len: &mut usize) -> u8
    ensures number { result ≡ fed_number frame }
    ensures len { len.new ≡ fed_length frame }
{
    match frame {
        Ok(Some(size)) => {
            *len = size;
            DONE
        }
        Ok(None) => {
            *len = 0;
            NO_FRAME
        }
        Err(refusal) => {
            *len = 0;
            refusal.into()
        }
    }
}

// What a reply tells beside its bytes.
fn tell_outcome(outcome: Result<Option<u8>, Failure>, action: &mut u8, missing: &mut u8) -> u8
    ensures number { result ≡ outcome_number outcome }
    ensures action { action.new ≡ outcome_action outcome }
    ensures missing { missing.new ≡ outcome_missing outcome }
{
    *action = NO_ACTION;
    *missing = 0;
    match outcome {
        Ok(None) => DONE,
        Ok(Some(place)) => {
            *action = place;
            DONE
        }
        Err(Failure::NoNode(len)) => {
            *missing = len;
            Refusal::NoSuchNode.into()
        }
        Err(Failure::Refused(refusal)) => refusal.into(),
    }
}

// What a serving call comes to.
fn tell_served(
    served: Result<Reply, Refusal>,
    len: &mut usize,
    action: &mut u8,
    missing: &mut u8,
) -> u8
    ensures number { result ≡ served_number served }
    ensures len { len.new ≡ served_length served }
    ensures action { action.new ≡ served_action served }
    ensures missing { missing.new ≡ served_missing served }
{
    match served {
        Ok(reply) => {
            *len = reply.len;
            tell_outcome(reply.outcome, action, missing)
        }
        Err(refusal) => {
            *len = 0;
            tell_outcome(Err(Failure::Refused(refusal)), action, missing)
        }
    }
}

// A buffer of a size filled with zeros; one of any other size is refused with 1.
fn clear(buffer: &mut [u8], size: usize) -> u8
    ensures { Zeroes (eqb (length buffer.old) size) size buffer.old result buffer.new }
{
    if buffer.len() != size {
        return Refusal::Unsound.into();
    }
    buffer.fill(0);
    DONE
}

// A state in which a stream begins: 1 or 0.
pub fn pq_begin_stream(state: &mut [u8]) -> u8
    ensures { Zeroes (is_state_sized state.old) state_length state.old result state.new }
{
    clear(state, stream::state::STATE_LEN)
}

// Bytes fed to the stream reader: 1, 8, then what the stream rule gives, or 255 where no frame ended.
pub fn pq_feed(
    state: &mut [u8],
    address: u8,
    bytes: &[u8],
    out: &mut [u8],
    taken: &mut usize,
    len: &mut usize,
) -> u8
    ensures { Feeds (fed address state.old bytes.now (length out.old)) out.old result taken.new len.new state.new out.new }
{
    let fed = stream::feed::feed(state, address, bytes, out);
    *taken = fed.taken;
    tell_frame(fed.frame, len)
}

// The check of a tree and its cells: 1 or 0.
pub fn pq_check(tree: &[u8], cells: &[u8]) -> u8
    ensures { result ≡ lent_number tree.now cells.now }
{
    number_of(cells::check::check(tree, cells))
}

// The check of a tree alone: 1 or 0.
pub fn pq_check_tree(tree: &[u8]) -> u8
    ensures { result ≡ tree_number tree.now }
{
    if soundness::is_tree(tree) {
        return DONE;
    }
    Refusal::Unsound.into()
}

// How many bytes the cells of a tree take; 0 where it is not sound.
pub fn pq_cells_size(tree: &[u8]) -> usize
    ensures { result ≡ cells_size tree.now }
{
    if !soundness::is_tree(tree) {
        return 0;
    }
    tree::record::property_count(tree) * cells::CELL_SIZE
}

// The listing of a tree: 1, 8 or 0. Its length is told with 8 too.
pub fn pq_list(tree: &[u8], out: &mut [u8], len: &mut usize) -> u8
    ensures { Lists tree.now out.old result len.new out.new }
{
    tell_text(listing::list(tree, out), len)
}

// The settings on a sheet: 1, 17, 18, 8 or 0. Its length is told with 8 too.
pub fn pq_write_sheet(tree: &[u8], cells: &[u8], out: &mut [u8], len: &mut usize) -> u8
    ensures { Fills (written tree.now cells.now) out.old result len.new out.new }
{
    tell_text(sheet::write_sheet(tree, cells, out), len)
}

// The settings of a sheet stored, all or none: 1, 17, 18 or 0.
pub fn pq_read_sheet(tree: &[u8], cells: &mut [u8], sheet: &[u8]) -> u8
    ensures { Updates (load_in tree.now cells.old sheet.now) result cells.new }
{
    number_of(sheet::read_sheet(tree, cells, sheet))
}

// Cells that begin: every word 0, none ready: 1 or 0.
pub fn pq_begin_cells(tree: &[u8], cells: &mut [u8]) -> u8
    ensures { Zeroes (is_cells_sized tree.now cells.old) (cells_size tree.now) cells.old result cells.new }
{
    if !soundness::is_tree(tree) {
        return Refusal::Unsound.into();
    }
    clear(cells, tree::record::property_count(tree) * cells::CELL_SIZE)
}

// A reading posted to a live property: 1, 14 or 0.
pub fn pq_post(tree: &[u8], cells: &mut [u8], place: usize, word: u32, ready: u8) -> u8
    ensures { Updates (post_in tree.now cells.old place word (truth ready)) result cells.new }
{
    number_of(cells::update::post(tree, cells, place, word, ready != 0))
}

// Saved cells lent again, every live property marked not ready: 1 or 0.
pub fn pq_restore_cells(tree: &[u8], cells: &mut [u8]) -> u8
    ensures { Updates (restore_in tree.now cells.old) result cells.new }
{
    number_of(cells::update::restore(tree, cells))
}

// The number that the property at a place has to read, or why it has none.
fn read(tree: &[u8], cells: &[u8], place: usize) -> Result<u32, Refusal>
    ensures { ReadIs (read_in tree.now cells.now place) result }
{
    cells::check::check(tree, cells)?;
    if tree::record::property_count(tree) <= place {
        return Err(Refusal::NoSuchProperty);
    }
    cells::cell::reading(tree, cells, place).ok_or(Refusal::NoReading)
}

// The number that the property at a place has to read: 1, 16 (no such property), 12 (no number) or 0.
pub fn pq_reading(tree: &[u8], cells: &[u8], place: usize, word: &mut u32) -> u8
    ensures { Reads (read_in tree.now cells.now place) word.old result word.new }
{
    let read = read(tree, cells, place);
    if let Ok(told) = read {
        *word = told;
    }
    number_of(read)
}

// Request data served: 1, 8, 4, 5, 9, 10, 11, 15, 16, 12, 13 or 0.
pub fn pq_serve_data(
    tree: &[u8],
    cells: &mut [u8],
    host: u8,
    request: &[u8],
    out: &mut [u8],
    len: &mut usize,
    action: &mut u8,
    missing: &mut u8,
) -> u8
    ensures { Serves (serve_data (length out.old) request.now (truth host) tree.now cells.old) out.old result len.new action.new missing.new cells.new out.new }
{
    let served = answer::serve::serve_data(tree, cells, host != 0, request, out);
    tell_served(served, len, action, missing)
}

// A serial string served for the box's address: 1, 8, 2, 3, 4, 5, 6, 7, 9, 10, 11, 15, 16, 12, 13 or 0.
pub fn pq_serve_serial(
    tree: &[u8],
    cells: &mut [u8],
    host: u8,
    address: u8,
    string: &[u8],
    out: &mut [u8],
    len: &mut usize,
    action: &mut u8,
    missing: &mut u8,
) -> u8
    ensures { Serves (serve_serial address (length out.old) string.now (truth host) tree.now cells.old) out.old result len.new action.new missing.new cells.new out.new }
{
    let serial = answer::serve::serve_serial(tree, cells, host != 0, address, string, out);
    tell_served(serial, len, action, missing)
}

// A datagram served: 1, 8, 2, 4, 5, 9, 10, 11, 15, 16, 12, 13 or 0.
pub fn pq_serve_udp(
    tree: &[u8],
    cells: &mut [u8],
    host: u8,
    datagram: &[u8],
    out: &mut [u8],
    len: &mut usize,
    action: &mut u8,
    missing: &mut u8,
) -> u8
    ensures { Serves (serve_udp (length out.old) datagram.now (truth host) tree.now cells.old) out.old result len.new action.new missing.new cells.new out.new }
{
    let udp = answer::serve::serve_udp(tree, cells, host != 0, datagram, out);
    tell_served(udp, len, action, missing)
}

// Data framed for an address: 8, 4, 5 or 0.
pub fn pq_frame(address: u8, payload: &[u8], out: &mut [u8], len: &mut usize) -> u8
    ensures { Emits (if_room room_serial (length out.old) (write_frame address payload.now)) out.old result len.new out.new }
{
    tell(frame::write::write_frame(address, payload, out), 0, len)
}

// Data in a datagram: 8, 4, 5 or 0.
pub fn pq_datagram(payload: &[u8], out: &mut [u8], len: &mut usize) -> u8
    ensures { Emits (if_room room_udp (length out.old) (write_datagram payload.now)) out.old result len.new out.new }
{
    tell(datagram::write_datagram(payload, out), 0, len)
}

// A serial string's data, copied: 8, 2, 3, 4, 5, 6, 7 or 0.
pub fn pq_read_frame(address: u8, string: &[u8], out: &mut [u8], len: &mut usize) -> u8
    ensures { Emits (if_room room_data (length out.old) (read_frame address string.now)) out.old result len.new out.new }
{
    tell(frame::read::read_frame(address, string, out), 0, len)
}

// Where a datagram's data stands in it: 2, 4, 5 or 0.
pub fn pq_datagram_data(datagram: &[u8], offset: &mut usize, len: &mut usize) -> u8
    ensures { Locates (read_datagram datagram.now) datagram.now result offset.new len.new }
{
    match datagram::payload_of(datagram) {
        Ok(payload) => {
            *offset = 4;
            *len = payload.len();
            DONE
        }
        Err(refusal) => {
            *offset = 0;
            *len = 0;
            refusal.into()
        }
    }
}

// What was read, handed back with 0 alone. Returns the number.
fn hand_back(
    asked: Result<Request, Refusal>,
    op: &mut u8,
    path: &mut [u8; 16],
    path_len: &mut usize,
    index: &mut u8,
    value: &mut u32,
) -> u8
    ensures { (a : rule.Asked) → AskedIs a asked → HandsBack a (handed op.old path.old path_len.old index.old value.old) result (handed op.new path.new path_len.new index.new value.new) }
{
    match asked {
        Ok(request) => {
            *op = request.op.into();
            *path_len = request.path.len;
            *index = request.index.0;
            *value = request.value;
            let numbers = request.path.numbers;
            *path = numbers;
            DONE
        }
        Err(refusal) => refusal.into(),
    }
}

// A serial string read as a request: 2, 3, 4, 5, 6, 7, 10, 11 or 0.
pub fn pq_read_serial(
    address: u8,
    string: &[u8],
    op: &mut u8,
    path: &mut [u8; 16],
    path_len: &mut usize,
    index: &mut u8,
    value: &mut u32,
) -> u8
    ensures { HandsBack (read_serial address string.now) (handed op.old path.old path_len.old index.old value.old) result (handed op.new path.new path_len.new index.new value.new) }
{
    hand_back(
        request::read::read_serial(address, string),
        op,
        path,
        path_len,
        index,
        value,
    )
}

// A datagram read as a request: 2, 4, 5, 10, 11 or 0.
pub fn pq_read_udp(
    datagram: &[u8],
    op: &mut u8,
    path: &mut [u8; 16],
    path_len: &mut usize,
    index: &mut u8,
    value: &mut u32,
) -> u8
    ensures { HandsBack (read_udp datagram.now) (handed op.old path.old path_len.old index.old value.old) result (handed op.new path.new path_len.new index.new value.new) }
{
    hand_back(
        request::read::read_udp(datagram),
        op,
        path,
        path_len,
        index,
        value,
    )
}

// A request written out in a frame for an address: 8, 10, 11 or 0.
pub fn pq_write_serial(
    address: u8,
    op: u8,
    path: &[u8],
    index: u8,
    value: u32,
    out: &mut [u8],
    len: &mut usize,
) -> u8
    ensures { Emits (write_request room_serial (length out.old) (serial_form address) (request_of op path.now index value)) out.old result len.new out.new }
{
    let string = compose::write_serial(address, op, path, PropertyIndex(index), value, out);
    tell(string, 0, len)
}

// A request written out in a datagram: 8, 10, 11 or 0.
pub fn pq_write_udp(
    op: u8,
    path: &[u8],
    index: u8,
    value: u32,
    out: &mut [u8],
    len: &mut usize,
) -> u8
    ensures { Emits (write_request room_udp (length out.old) udp_form (request_of op path.now index value)) out.old result len.new out.new }
{
    let datagram = compose::write_udp(op, path, PropertyIndex(index), value, out);
    tell(datagram, 0, len)
}

// A station's Buslink frame of a type: 1, 8, 19 or 0. Its data stands at the front of the output.
pub fn pq_buslink_send(
    tree: &[u8],
    cells: &[u8],
    base: u8,
    sub: u8,
    kind: u8,
    out: &mut [u8],
    identifier: &mut u32,
) -> u8
    ensures { Sends (send_in tree.now cells.now base sub kind (length out.old)) out.old result identifier.new out.new }
{
    let sent = buslink::send::send(tree, cells, base, sub, kind, out);
    tell(sent, 0, identifier)
}

// A table of a Buslink receiver's records that begins: 1 or 0.
pub fn pq_begin_buslink(records: &mut [u8]) -> u8
    ensures { Zeroes (is_table records.old) table_size records.old result records.new }
{
    clear(records, buslink::TABLE_SIZE)
}

// A Buslink frame received for a station: 1, 19, 20 or 0. Tells which of the indicators that it carried are usable.
pub fn pq_buslink_receive(
    records: &mut [u8],
    base: u8,
    sub: u8,
    identifier: u32,
    payload: &[u8],
    usable: &mut u16,
) -> u8
    ensures { Receives (receive_table base sub identifier payload.now records.old) result usable.new records.new }
{
    let usable_ones = buslink::table::receive(records, base, sub, identifier, payload);
    tell(usable_ones, 0, usable)
}

// What a Buslink receiver's records hold of an indicator: 1, 19 or 0.
pub fn pq_buslink_indicator(
    records: &[u8],
    indicator: u8,
    value: &mut i32,
    status: &mut u8,
    format: &mut u8,
) -> u8
    ensures { Tells (told_in records.now indicator) value.old status.old format.old result value.new status.new format.new }
{
    match buslink::table::indicator_of(records, indicator) {
        Ok(told) => {
            *value = word::signed(told.value);
            *status = told.status;
            *format = told.format;
            DONE
        }
        Err(refusal) => refusal.into(),
    }
}
