// A column list in codes, four bytes a description: kind, options, width low byte first. It is judged, and read into an array of columns.
#![tactic(auto)]

ghost use Rattle.std.specs.Prelude.{◌≡◌, ◌+◌, ◌*◌, ◌≤◌, length, get_or};
ghost use Rattle.format.specs.Described.{coded, code_at, column_of, held_fault};
ghost use Rattle.list_reader.specs.Listing.{ListedAs};

use descriptions::{check_numbers, kind_of};
use format::{Column, Refusal, Schema, SortOptions};

// The width of the description at `at`.
fn coded_width(codes: &[u8], at: usize) -> u16
    requires { at + 4 ≤ length codes.now }
    ensures { result ≡ get_or codes.now (at + 2) 0 + 256 * get_or codes.now (at + 3) 0 }
{
    u16::from_le_bytes([codes[at + 2], codes[at + 3]])
}

// The first fault of description i.
fn check_code(codes: &[u8], i: usize) -> Result<(), Refusal>
    requires { 4 * i + 4 ≤ length codes.now }
    ensures { result ≡ held_fault i (code_at codes.now i) }
{
    let at = 4 * i;
    check_numbers(
        i,
        codes[at],
        false,
        codes[at + 1],
        coded_width(codes, at) as usize,
    )
}

// The column that description i says.
pub fn coded_column(codes: &[u8], i: usize) -> Column
    requires { 4 * i + 4 ≤ length codes.now }
    ensures { result ≡ column_of (code_at codes.now i) }
{
    let at = 4 * i;
    let kind = kind_of(codes[at], coded_width(codes, at));
    let options = SortOptions::from(codes[at + 1]);
    Column {
        kind: kind,
        options: options,
    }
}

// The descriptions, left to right: at each 5, then its own faults; a tail shorter than four bytes does not count.
pub fn read_codes(codes: &[u8]) -> Result<Schema, Refusal>
    ensures { ListedAs (coded codes.now) result }
{
    // No Vec: the library has no heap.
    let mut columns = [Column::default(); format::MAX_COLUMNS];
    let count = codes.len() / 4;
    if count == 0 {
        return Err(Refusal::ListCut(0));
    }
    for i in 0..count {
        if i == format::MAX_COLUMNS {
            return Err(Refusal::ManyColumns(i));
        }
        check_code(codes, i)?;
        columns[i] = coded_column(codes, i);
    }
    Ok(Schema { columns, count })
}
