// What the table of requests allows. Reading and writing both go by it.
#![tactic(auto)]

ghost use Rattle.std.specs.Prelude.{◌≡◌, ◌==◌, not};
ghost use Rattle.std.specs.List.{list_all};
ghost use Rattle.protocol.specs.Request.{request_of, is_path, path_fits, index_fits, value_fits, fits};

use protocol::{MAX_DEPTH, OP_NODE, OP_READ, Op, PropertyIndex};

// Whether bytes are nonzero, all of them.
fn all_nonzero(bs: &[u8]) -> bool
    ensures { result ≡ list_all (λ b. not (b == 0)) bs.now }
{
    bs.iter().all(|b| *b != 0)
}

// Whether bytes are a path: 1 to 16 of them, none of them 0.
fn is_path(path: &[u8]) -> bool
    ensures { result ≡ is_path path.now }
{
    (1..=MAX_DEPTH).contains(&path.len()) && all_nonzero(path)
}

// Each part of a request: by its rule where the op asks for it, and else empty or 0.
fn path_fits(op: u8, path: &[u8]) -> bool
    ensures { result ≡ path_fits op path.now }
{
    if u8::from(Op::Detect) < op {
        return is_path(path);
    }
    path.is_empty()
}

fn index_fits(op: u8, index: PropertyIndex) -> bool
    ensures { result ≡ index_fits op index.0 }
{
    if OP_NODE < op {
        return 0 < index.0;
    }
    index.0 == 0
}

fn value_fits(op: u8, value: u32) -> bool
    ensures { result ≡ value_fits op value }
{
    OP_READ < op || value == 0
}

// Whether a request has what its op asks for, and no more.
#[tactic(auto, unfolding(protocol::specs::Request::fits))]
pub fn all_fit(op: u8, path: &[u8], index: PropertyIndex, value: u32) -> bool
    ensures { result ≡ fits (request_of op path.now index.0 value) }
{
    path_fits(op, path) && index_fits(op, index) && value_fits(op, value)
}
