// Lines of output: names, numbers, bytes in hex.
use format::{Refusal, Returned};
use std::io;
use std::io::Write;

pub fn end_line<W: Write>(out: &mut W) -> io::Result<()> {
    out.write_all(b"\n")
}

// The case's name and its four numbers.
pub fn show<W: Write>(out: &mut W, name: &str, a: Result<(u64, u64), Refusal>) -> io::Result<()> {
    let r = Returned::from(a);
    write!(out, "{name} {} {} {} {}", r.0, r.1, r.2, r.3)
}

fn show_hex<W: Write>(out: &mut W, bytes: &[u8]) -> io::Result<()> {
    for byte in bytes {
        write!(out, "{byte:02x}")?;
    }
    Ok(())
}

// Bytes in hex; `-` for none.
pub fn show_bytes<W: Write>(out: &mut W, bytes: &[u8]) -> io::Result<()> {
    if bytes.is_empty() {
        return out.write_all(b" -");
    }
    out.write_all(b" ")?;
    show_hex(out, bytes)
}

pub fn show_offsets<W: Write>(out: &mut W, offsets: &[u64]) -> io::Result<()> {
    for offset in offsets {
        write!(out, " {offset}")?;
    }
    Ok(())
}

// The case's name, and what compare answers.
pub fn show_sign<W: Write>(out: &mut W, name: &str, sign: i32) -> io::Result<()> {
    match sign {
        -1 | 0 | 1 => write!(out, "{name} {sign}"),
        _ => write!(out, "{name} neither"),
    }
}
