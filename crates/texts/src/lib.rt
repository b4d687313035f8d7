// The text of rows and of refusals. Each writer puts its piece at a place and returns the place after it. No `Display` and `write!`: these
// promise their text only where they return `Ok`, and no clause says when that is, so that `Printed` of `printer::print` would not follow.
#![tactic(auto)]

ghost use Rattle.std.specs.Prelude.{◌≡◌, ◌+◌, ◌<◌, ◌≤◌, length};
ghost use Rattle.format.specs.Numbers.{refusal_numbers};
ghost use Rattle.format.specs.Entries.{cut_rows};
ghost use Rattle.format.specs.Program.{digit as hexDigit, hex_lines, refused_line};
ghost use Rattle.format.specs.Passed.{Cuts};
ghost use Rattle.basics.specs.Wrote.{Wrote};
ghost use Rattle.texts.specs.Text.{refused_room, row_line, number_text};

use format::{Refusal, Returned};

// A hex digit, in lower case.
fn digit(d: u8) -> u8
    requires { d < 16 }
    ensures { result ≡ hexDigit d }
{
    if d < 10 { 48 + d } else { 87 + d }
}

// A row: two digits a byte, high half first, and a newline.
fn put_row(row: &[u8], out: &mut [u8], at: usize) -> usize
    requires { at + length (row_line row.now) ≤ length out.old }
    ensures { Wrote (row_line row.now) at out.old out.new result }
{
    let mut place = at;
    for byte in row {
        out[place] = digit(*byte / 16);
        out[place + 1] = digit(*byte % 16);
        place += 2;
    }
    out[place] = b'\n';
    place + 1
}

// The n rows that the offsets cut out of the row bytes, a line each.
// `Cuts`, here and above: it is about n, rows and offsets together, which no type says in plainer words.
pub fn put_rows(rows: &[u8], offsets: &[u64], n: usize, out: &mut [u8]) -> usize
    requires cuts { Cuts n rows.now offsets.now }
    requires offsets_in_bounds { length (hex_lines (cut_rows n rows.now offsets.now)) ≤ length out.old }
    ensures { Wrote (hex_lines (cut_rows n rows.now offsets.now)) 0 out.old out.new result }
{
    let mut at = 0;
    for i in 0..n {
        let from = offsets[i] as usize;
        let to = offsets[i + 1] as usize;
        at = put_row(&rows[from..to], out, at);
    }
    at
}

// Bytes as they stand.
fn put_bytes(text: &[u8], out: &mut [u8], at: usize) -> usize
    requires { at + length text.now ≤ length out.old }
    ensures { Wrote text.now at out.old out.new result }
{
    let end = at + text.len();
    out[at..end].copy_from_slice(text);
    end
}

// A number in decimal, at most 20 digits, and a byte after it.
fn put_number(n: u64, after: u8, out: &mut [u8], at: usize) -> usize
    requires { at + 21 ≤ length out.old }
    ensures { Wrote (number_text n after) at out.old out.new result }
{
    // An array: fixed memory, no heap.
    let mut digits = [0u8; 20];
    let k = io::decimal(n, &mut digits);
    let end = put_bytes(&digits[..k], out, at);
    out[end] = after;
    end + 1
}

// The line of a refusal: the word, and its four numbers.
pub fn put_refused(r: Refusal, out: &mut [u8]) -> usize
    requires { refused_room ≤ length out.old }
    ensures { Wrote (refused_line (refusal_numbers r)) 0 out.old out.new result }
{
    let numbers = Returned::from(r);
    let first = put_bytes(b"refused ", out, 0);
    let second = put_number(numbers.0, b' ', out, first);
    let third = put_number(numbers.1, b' ', out, second);
    let fourth = put_number(numbers.2, b' ', out, third);
    put_number(numbers.3, b'\n', out, fourth)
}
