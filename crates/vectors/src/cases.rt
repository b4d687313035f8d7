// Recorded cases, a line each:
//
//     encode LIST SHEET N,ROWS,OFFSETS      with so much room for row bytes and offsets
//     decode LIST ROWS N,SHEET,OFFSET,..    with so much room for the sheet
//     compare A B
//
// What each entry answers is shown with the whole of the lent buffers.
ghost use Rattle.std.specs.Prelude.{◌<◌, ◌≤◌, length};

use crate::reader::{place, read_hex, read_numbers, word};
use crate::show::{end_line, show, show_bytes, show_offsets, show_sign};
use std::io;
use std::io::Write;

// The most bytes of a word or a buffer, and the most numbers.
const BYTES: usize = 2048;

const NUMBERS: usize = 64;

// The list checked, the sheet measured and encoded, and what the buffers then hold decoded.
fn show_all<W: Write>(
    out: &mut W,
    list: &[u8],
    n: u64,
    sheet: &[u8],
    rows: &mut [u8],
    offsets: &mut [u64],
    back: &mut [u8],
) -> io::Result<()> {
    show(out, "list", station::list::check_list(list))?;
    show(out, " measure", station::measure::measure(list, n, sheet))?;
    show(
        out,
        " encode",
        station::encode::encode(list, n, sheet, rows, offsets),
    )?;
    show_offsets(out, offsets)?;
    show_bytes(out, rows)?;
    show(
        out,
        " decode",
        station::decode::decode(list, n, rows, offsets, back),
    )?;
    show_bytes(out, back)?;
    end_line(out)
}

// The sheet comes back into as much room as it takes.
fn encode<W: Write>(out: &mut W, list: &[u8], sheet: &[u8], numbers: &[u64]) -> io::Result<bool> {
    // Arrays, here and below: fixed memory, no heap.
    let mut rows = [0xEEu8; BYTES];
    let mut offsets = [9u64; NUMBERS];
    let mut back = [0xEEu8; BYTES];
    if numbers.len() != 3 {
        return Ok(false);
    }
    let r = numbers[1] as usize;
    let o = numbers[2] as usize;
    let s = sheet.len();
    if BYTES < r || NUMBERS < o || BYTES < s {
        return Ok(false);
    }
    show_all(
        out,
        list,
        numbers[0],
        sheet,
        &mut rows[..r],
        &mut offsets[..o],
        &mut back[..s],
    )?;
    Ok(true)
}

fn show_decoded<W: Write>(
    out: &mut W,
    list: &[u8],
    n: u64,
    rows: &[u8],
    offsets: &[u64],
    sheet: &mut [u8],
) -> io::Result<()> {
    show(
        out,
        "decode",
        station::decode::decode(list, n, rows, offsets, sheet),
    )?;
    show_bytes(out, sheet)?;
    end_line(out)
}

fn decode<W: Write>(out: &mut W, list: &[u8], rows: &[u8], numbers: &[u64]) -> io::Result<bool> {
    let mut sheet = [0xEEu8; BYTES];
    if numbers.len() < 2 {
        return Ok(false);
    }
    let s = numbers[1] as usize;
    if BYTES < s {
        return Ok(false);
    }
    show_decoded(out, list, numbers[0], rows, &numbers[2..], &mut sheet[..s])?;
    Ok(true)
}

fn compare<W: Write>(out: &mut W, a: &[u8], b: &[u8]) -> io::Result<bool> {
    show_sign(out, "compare", station::compare::compare(a, b))?;
    end_line(out)?;
    Ok(true)
}

// Runs a case; false if there is no such case.
fn run_case<W: Write>(
    out: &mut W,
    name: &[u8],
    first: &[u8],
    second: &[u8],
    numbers: &[u64],
) -> io::Result<bool> {
    if name == b"encode".as_slice() {
        return encode(out, first, second, numbers);
    }
    if name == b"decode".as_slice() {
        return decode(out, first, second, numbers);
    }
    if name == b"compare".as_slice() {
        return compare(out, first, second);
    }
    Ok(false)
}

// Runs the case of a line; false if it holds none.
fn run_line<W: Write>(out: &mut W, line: &[u8]) -> io::Result<bool> {
    let mut first = [0u8; BYTES];
    let mut second = [0u8; BYTES];
    let mut numbers = [0u64; NUMBERS];
    let Some(a) = read_hex(word(line, 1), &mut first) else {
        return Ok(false);
    };
    let Some(b) = read_hex(word(line, 2), &mut second) else {
        return Ok(false);
    };
    let Some(k) = read_numbers(word(line, 3), &mut numbers) else {
        return Ok(false);
    };
    if !word(line, 4).is_empty() {
        return Ok(false);
    }
    run_case(out, word(line, 0), &first[..a], &second[..b], &numbers[..k])
}

// Where the line after the one at a place begins, if that one holds a case; past a line that holds none, that is the end.
fn step(text: &[u8], at: usize, is_case: bool) -> usize
    requires { at < length text.now }
    ensures { (at < result) × (result ≤ length text.now) }
{
    let end = place(text, at, b'\n');
    if is_case && end < text.len() {
        return end + 1;
    }
    text.len()
}

// Runs the case of the line at a place; false if it holds none, which is shown. The last line is one only if a newline ends it.
fn run_at<W: Write>(out: &mut W, text: &[u8], at: usize) -> io::Result<bool>
    requires { at < length text.now }
{
    let end = place(text, at, b'\n');
    if end < text.len() && run_line(out, &text[at..end])? {
        return Ok(true);
    }
    out.write_all(b"not a case: ")?;
    out.write_all(&text[at..end])?;
    end_line(out)?;
    Ok(false)
}

// Runs the cases of a text, up to the first line that holds none.
pub fn run<W: Write>(out: &mut W, text: &[u8]) -> io::Result<()> {
    let mut at = 0;
    // No `for`: a turn takes a line, and std splits no slice of bytes at newlines.
    while at < text.len() {
        let is_case = run_at(out, text, at)?;
        at = step(text, at, is_case);
    }
    Ok(())
}
