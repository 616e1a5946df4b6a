// A line for each case: its name, the number returned, and the bytes written in hex.
use std::io;

fn show_byte(rt: &impl Print, b: u8) -> io::Result<()> {
    let digits = text::number::hex_byte(b);
    rt.write_all(&digits)
}

fn show_bytes(rt: &impl Print, bytes: &[u8]) -> io::Result<()> {
    for b in bytes {
        show_byte(rt, *b)?;
    }
    Ok(())
}

pub(crate) fn line(rt: &impl Print, name: &[u8], number: u8, bytes: &[u8]) -> io::Result<()> {
    rt.write_all(name)?;
    print!(rt; ": {number} ")?;
    show_bytes(rt, bytes)?;
    rt.write_all(b"\n")
}

pub(crate) fn broken(rt: &impl Print) -> io::Result<()> {
    println!(rt; "broken")
}
