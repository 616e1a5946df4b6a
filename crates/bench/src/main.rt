// The bench program: a stream from standard input over the bench tree, address 0, host functions on (document 01, Bench tree
// and its cases). What it does with each part of the input is `console::bench::step`.
#![tactic(auto)]

ghost use Rattle.std.specs.Prelude.{◌≡◌, true, IfOk};
ghost use Rattle.stream.specs.State.{has_form};
ghost use Rattle.console.specs.Steps.{Progress};

use std::io;
use std::io::Read;

// One step over a part of the input, and its lines written. Returns how many bytes it took.
fn show(rt: &impl Print, state: &mut [u8], cells: &mut [u8], bytes: &[u8]) -> io::Result<usize>
    requires { has_form state.old ≡ true }
    ensures form { has_form state.new ≡ true }
    ensures progress { IfOk result (λ taken. Progress bytes.now taken state.new) }
{
    let mut text = [0u8; 1058];
    let shown = console::bench::step(state, cells, bytes, &mut text);
    rt.write_all(&text[..shown.len])?;
    Ok(shown.taken)
}

// All of a part of the input, step by step. Fails only where a line could not be written.
fn show_all(rt: &impl Print, state: &mut [u8], cells: &mut [u8], bytes: &[u8]) -> io::Result<()>
    requires { has_form state.old ≡ true }
    ensures { has_form state.new ≡ true }
{
    let mut rest = bytes;
    while !rest.is_empty() {
        let taken = show(rt, state, cells, rest)?;
        rest = &rest[taken..];
    }
    Ok(())
}

// One read, and what came of it. Returns whether to go on: false where the input ends.
fn read_some<R: Read>(
    rt: &impl Print,
    input: &mut R,
    state: &mut [u8],
    cells: &mut [u8],
) -> io::Result<bool>
    requires { has_form state.old ≡ true }
    ensures { has_form state.new ≡ true }
{
    let mut part = [0u8; 4096];
    let n = input.read(&mut part)?;
    if n == 0 {
        return Ok(false);
    }
    show_all(rt, state, cells, &part[..n])?;
    Ok(true)
}

// Reads until the input ends. A proved loop has to end, and nothing says that the input does: so it counts its turns, up to a
// number that no run reaches.
fn read_all<R: Read>(
    rt: &impl Print,
    input: &mut R,
    state: &mut [u8],
    cells: &mut [u8],
) -> io::Result<()>
    requires { has_form state.old ≡ true }
{
    for _ in 0..u64::MAX {
        if !read_some(rt, input, state, cells)? {
            break;
        }
    }
    Ok(())
}

fn main(rt: HostRuntime) -> io::Result<()> {
    rt.write_all(b"address=0\n")?;
    let mut state = [0u8; 261];
    let mut cells = cells::bench::cells();
    read_all(&rt, &mut rt.reader(), &mut state, &mut cells)
}
