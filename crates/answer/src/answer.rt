// A request that was read, answered: the reply at the front of an output of at least 256 bytes, and the cells afterwards.
ghost use Rattle.std.specs.Prelude.{◌≡◌, true, [], ◌∷◌, ◌≤◌, ◌<◌, length};
ghost use Rattle.std.proofs.Math.Option.{some};
ghost use Rattle.protocol.specs.Numbers.{op_detect, op_node, op_read};
ghost use Rattle.protocol.specs.Refusal.{refusal_number, op_number};
ghost use Rattle.protocol.specs.Buffer.{Put};
ghost use Rattle.protocol.specs.Request.{data_of};
ghost use Rattle.protocol.specs.Tree.{property_in};
ghost use Rattle.protocol.specs.Path.{failure_number};
ghost use Rattle.protocol.specs.Answer.{refusal_code, on_read, on_write, on_property, if_node, perform, outcome};
ghost use Rattle.tree.specs.Seen.{seen};
ghost use Rattle.cells.specs.Cells.{cells_in};
ghost use Rattle.cells.specs.Lent.{is_lent};
ghost use Rattle.request.specs.Asked.{request_in, asked_of};
ghost use Rattle.answer.specs.Steps.{OutcomeIs, Refuses, answer_asked, Replies};

use super::{Failure, Reply};
use cells::cell;
use lookup::Missing;
use protocol::{Op, Refusal, codes};
use reply::write;
use reply::write::Outcome;
use request::Request;

// A reply of one code.
fn put_code(out: &mut [u8], code: u8) -> usize
    requires { 256 ≤ length out.old }
    ensures { Put 0 (code ∷ []) out.old result out.new }
{
    out[0] = code;
    1
}

// The request's data, which every other reply begins with.
fn put_request(request: &Request, out: &mut [u8]) -> usize
    requires { 256 ≤ length out.old }
    ensures { Put 0 (data_of (request_in request.now)) out.old result out.new }
{
    let op = u8::from(request.op);
    compose::put_data(
        op,
        request.path.as_slice(),
        request.index,
        request.value,
        out,
    )
}

// Rows 9 to 12, and 15 and 16: the reply code of a refusal.
fn refusal_code(refusal: Refusal) -> u8
    ensures { result ≡ refusal_code (refusal_number refusal) }
{
    match refusal {
        Refusal::Disabled => codes::DISABLED,
        Refusal::UnknownCommand => codes::ILLEGAL,
        Refusal::NoReading => codes::NAK,
        _ => codes::ERROR,
    }
}

// A failure, its reply code at the front of an output.
fn refuse(failure: Failure, out: &mut [u8]) -> Reply
    requires { 256 ≤ length out.old }
    ensures { Refuses failure out.old result out.new }
{
    let code = refusal_code(Refusal::from(failure));
    Reply {
        len: put_code(out, code),
        outcome: Err(failure),
    }
}

// A reply of so many bytes that tells nothing beside them.
fn plain(len: usize) -> Reply
    ensures { result ≡ record { len = len; outcome = Ok None } }
{
    Reply {
        len,
        outcome: Ok(None),
    }
}

// What a write tells beside its reply.
fn outcome_of(did: Outcome, place: usize) -> Result<Option<u8>, Failure>
    requires { place < 256 }
    ensures { OutcomeIs did place result }
{
    match did {
        Outcome::Saved => Ok(None),
        Outcome::Taken => Ok(Some(place as u8)),
        Outcome::ReadOnly | Outcome::OutOfRange | Outcome::OffStep => {
            Err(Failure::Refused(Refusal::NotSaved))
        }
    }
}

// A tree with cells that fit it, and the output for a reply.
#[derive(Drop)]
pub(crate) struct Exchange<'a> {
    pub tree: &'a [u8],
    pub cells: &'a mut [u8],
    pub out: &'a mut [u8],
    ghost lent: { is_lent tree.now cells.now ≡ true },
    ghost roomy: { 256 ≤ length out.now },
}

impl Exchange<'_> {
    ghost use Rattle.answer.specs.Exchange.{Exchanges};

    // Op 3.
    fn on_read(&mut self, request: &Request, place: usize) -> Result<Reply, Failure>
        requires { op_number request.now.op ≡ op_read }
        ensures { Exchanges (on_read (cells_in self.old.cells.now) (property_in (seen self.old.tree.now) place) place (request_in request.now)) self.old result self.new }
    {
        let cells = &mut *self.cells;
        let word = cell::reading(self.tree, cells, place).ok_or(Refusal::NoReading)?;
        let at = put_request(request, self.out);
        Ok(plain(reply::put_reading(word, self.out, at)))
    }

    // Ops 4 and 5.
    fn on_write(&mut self, request: &Request, place: usize) -> Reply
        requires op { op_read < op_number request.now.op }
        requires within { place < 256 }
        ensures { Exchanges (on_write (cells_in self.old.cells.now) place (request_in request.now) (outcome (property_in (seen self.old.tree.now) place) request.now.value)) self.old (Ok result) self.new }
    {
        let did = write::outcome_of(self.tree, place, request.value);
        let at = put_request(request, self.out);
        let len = reply::put_written(did, u8::from(request.op), self.out, at);
        if let Outcome::Saved = did {
            cell::store_word(self.cells, place, request.value);
            return plain(len);
        }
        Reply {
            len,
            outcome: outcome_of(did, place),
        }
    }

    // Ops 2 to 5, once the property is found.
    fn on_property(&mut self, request: &Request, place: usize) -> Result<Reply, Failure>
        requires op { op_node < op_number request.now.op }
        requires within { place < length (seen self.old.tree.now).properties }
        ensures { Exchanges (on_property outcome (seen self.old.tree.now) (cells_in self.old.cells.now) (request_in request.now) place) self.old result self.new }
    {
        match request.op {
            Op::Record => {
                let at = put_request(request, self.out);
                Ok(plain(reply::put_record(self.tree, place, self.out, at)))
            }
            Op::Read => self.on_read(request, place),
            _ => Ok(self.on_write(request, place)),
        }
    }

    // Ops 1 to 5, once the node is found.
    fn on_node(&mut self, request: &Request, node: usize) -> Result<Reply, Failure>
        requires { op_detect < op_number request.now.op }
        ensures { Exchanges (if_node outcome failure_number (seen self.old.tree.now) (cells_in self.old.cells.now) (request_in request.now) (some node)) self.old result self.new }
    {
        if let Op::Node = request.op {
            let at = put_request(request, self.out);
            return Ok(plain(reply::put_node(self.tree, node, self.out, at)));
        }
        let place = lookup::property(self.tree, node, request.index).ok_or(
            Refusal::NoSuchProperty,
        )?;
        self.on_property(request, place)
    }

    // A request.
    fn perform(&mut self, request: &Request) -> Result<Reply, Failure>
        ensures { Exchanges (perform outcome failure_number (seen self.old.tree.now) (cells_in self.old.cells.now) (request_in request.now)) self.old result self.new }
    {
        if let Op::Detect = request.op {
            return Ok(plain(put_code(self.out, codes::ACK)));
        }
        match lookup::node(self.tree, request.path.as_slice()) {
            Ok(node) => self.on_node(request, node),
            Err(Missing(part)) => Err(Failure::NoNode(part as u8)),
        }
    }

    // What was read: 9, 10 or 11, else the request.
    fn attempt(&mut self, host: bool, asked: &Result<Request, Refusal>) -> Result<Reply, Failure>
        ensures { Exchanges (answer_asked (seen self.old.tree.now) (cells_in self.old.cells.now) host (asked_of asked.now)) self.old result self.new }
    {
        if !host {
            return Err(Failure::Refused(Refusal::Disabled));
        }
        match asked {
            Ok(request) => self.perform(request),
            Err(refusal) => Err(Failure::Refused(*refusal)),
        }
    }

    // The same, with a failure's code as its reply.
    fn answer(&mut self, host: bool, asked: &Result<Request, Refusal>) -> Reply
        ensures { Exchanges (answer_asked (seen self.old.tree.now) (cells_in self.old.cells.now) host (asked_of asked.now)) self.old (Ok result) self.new }
    {
        match self.attempt(host, asked) {
            Ok(reply) => reply,
            Err(failure) => refuse(failure, self.out),
        }
    }
}

// What was read, answered.
pub(crate) fn answer(
    tree: &[u8],
    cells: &mut [u8],
    host: bool,
    asked: &Result<Request, Refusal>,
    out: &mut [u8],
) -> Reply
    requires room { 256 ≤ length out.old }
    requires lent { is_lent tree.now cells.old ≡ true }
    ensures { Replies (answer_asked (seen tree.now) (cells_in cells.old) host (asked_of asked.now)) out.old result cells.new out.new }
{
    let mut exchange = Exchange { tree, cells, out };
    exchange.answer(host, asked)
}
