// Requests answered from a lent tree and its cells, over each of the three transports: request data, serial strings, datagrams.
#![tactic(auto)]

mod answer;
pub mod serve;

ghost use Rattle.std.specs.Prelude.{◌≡◌};
ghost use Rattle.protocol.specs.Refusal.{refusal_number};
ghost use Rattle.answer.specs.Reply.{failure_told};
ghost use Rattle.answer.specs.declared.Failure.TheVariants.{Refused};

use protocol::Refusal;

// A reply that a serving call wrote: its length, and what it tells the caller: the place of the property whose action is to be taken,
// where there is one, or why the request failed.
#[derive(Drop)]
pub struct Reply {
    pub len: usize,
    pub outcome: Result<Option<u8>, Failure>,
}

// Why a request failed: no node has its path, of whose front parts the shortest that none has is so long; or as a refusal says.
#[derive(Clone, Copy, Debug, PartialEq, Eq)]
pub enum Failure {
    NoNode(u8),
    Refused(Refusal),
}

impl From<Refusal> for Failure {
    ghost from_gives = { λ refusal failure. failure ≡ Refused refusal };

    fn from(refusal: Refusal) -> Failure {
        Failure::Refused(refusal)
    }
}

impl From<Failure> for Refusal {
    ghost from_gives = { λ failure refusal. refusal_number refusal ≡ failure_told failure };

    fn from(failure: Failure) -> Refusal {
        match failure {
            Failure::NoNode(_) => Refusal::NoSuchNode,
            Failure::Refused(refusal) => refusal,
        }
    }
}
