// The column list as bytes: checked left to right, and read once into an array of columns. The crates `column_reader` and `code_reader`
// do the same with its other two forms.
#![tactic(auto)]

ghost use Rattle.std.specs.Prelude.{◌≡◌, ◌+◌, ◌<◌, ◌≤◌, length, get_or};
ghost use Rattle.format.specs.Columns.{description_bytes, width_at, column_at, description_fault};
ghost use Rattle.format.specs.Described.{spelled};
ghost use Rattle.list_reader.specs.Listing.{ListedAs};

use descriptions::{check_numbers, kind_of};
use format::{Column, Refusal, Schema, SortOptions};

// The bytes of a description: kind and options, and for kind 15 also the width.
fn description_bytes(b: u8) -> usize
    ensures value { result ≡ description_bytes b }
    ensures lower_bound { (2 ≤ result) × (result ≤ 4) }
{
    if b == 15 {
        return 4;
    }
    2
}

// The width of the column whose description stands at `at`: two bytes, low byte first, and 0 outside kind 15.
fn width_at(list: &[u8], at: usize) -> u16
    requires { at + description_bytes (get_or list.now at 0) ≤ length list.now }
    ensures { result ≡ width_at list.now at }
{
    if list[at] != 15 {
        return 0;
    }
    u16::from_le_bytes([list[at + 2], list[at + 3]])
}

// The first fault of the description at `at`.
fn check_description(list: &[u8], at: usize) -> Result<(), Refusal>
    requires { at < length list.now }
    ensures { result ≡ description_fault list.now at }
{
    let kind = list[at];
    if list.len() - at < description_bytes(kind) {
        return check_numbers(at, kind, true, 0, 0);
    }
    check_numbers(at, kind, false, list[at + 1], width_at(list, at) as usize)
}

// The column whose description stands at `at`.
fn column_at(list: &[u8], at: usize) -> Column
    requires { at + description_bytes (get_or list.now at 0) ≤ length list.now }
    ensures { result ≡ column_at list.now at }
{
    let kind = kind_of(list[at], width_at(list, at));
    let options = SortOptions::from(list[at + 1]);
    Column {
        kind: kind,
        options: options,
    }
}

// The list, left to right: at each column 5, then its own faults.
pub fn read_list(list: &[u8]) -> Result<Schema, Refusal>
    ensures { ListedAs (spelled list.now) result }
{
    // An array and a count, no Vec: the library has no heap.
    let mut columns = [Column::default(); format::MAX_COLUMNS];
    let mut count: usize = 0;
    let mut at: usize = 0;
    if list.len() == 0 {
        return Err(Refusal::ListCut(0));
    }
    // A `while`: a description has two or four bytes, as its kind says, so that no range has the places.
    while at < list.len() {
        if count == format::MAX_COLUMNS {
            return Err(Refusal::ManyColumns(at));
        }
        check_description(list, at)?;
        columns[count] = column_at(list, at);
        count += 1;
        at += description_bytes(list[at]);
    }
    Ok(Schema { columns, count })
}
