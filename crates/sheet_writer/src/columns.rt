// The values of a column from their parts, the columns of a sheet, and the cursors that the walk starts from.
ghost use Rattle.std.specs.Prelude.{◌≡◌, ◌+◌, ◌≤◌, length, take};
ghost use Rattle.basics.specs.Wrote.{Wrote};
ghost use Rattle.format.specs.Limits.{max_rows};
ghost use Rattle.format.specs.Schemas.{cols_of};
ghost use Rattle.format.specs.Entries.{cut_rows, rows_slots};
ghost use Rattle.cursors.specs.Cursors.{Readable, nexts_at};
ghost use Rattle.sheet_writer.specs.Writing.{Clears, Decodable, Writable, slots_to_come, values_at};

use crate::Written;
use bits::count_ones;
use end_mover::move_ended;
use flag_packer::{pack_true, pack_valid};
use format::{Column, Kind, Schema};
use local_numbers::with_numbers;
use value_mover::{advance, move_wide};

// The values of a column, by their layout, and its cursors past the fields.
fn write_values(
    rows: &[u8],
    cursors: &mut [usize],
    column: Column,
    sheet: &mut [u8],
    at: usize,
) -> usize
    requires cursors_len_bound { length cursors.old ≤ max_rows }
    requires readable { Readable column rows.now cursors.old }
    requires cursors_in_bounds { at + length (values_at column rows.now cursors.old) ≤ length sheet.old }
    ensures wrote { Wrote (values_at column rows.now cursors.old) at sheet.old sheet.new result }
    ensures cursors_after { cursors.new ≡ nexts_at column rows.now cursors.old }
{
    match column.kind {
        Kind::Bool => {
            let end = pack_true(rows, cursors, column, sheet, at);
            advance(cursors, 2);
            end
        }
        Kind::Variable => move_ended(rows, cursors, column.options, sheet, at),
        _ => move_wide(rows, cursors, column, sheet, at),
    }
}

// The columns in list order, from the front of the sheet on: validity, whose ones are the slots that are not null, then values.
fn write_columns(schema: Schema, rows: &[u8], cursors: &mut [usize], sheet: &mut [u8]) -> Written
    requires { Writable schema rows.now cursors.old sheet.old }
    ensures { Clears (length cursors.old) (cols_of schema) (slots_to_come (cols_of schema) rows.now cursors.old)
        sheet.old sheet.new result }
{
    let n = cursors.len();
    let mut nulls: u64 = 0;
    let mut at = 0;
    for c in 0..schema.count {
        let column = schema.columns[c];
        let values = pack_valid(rows, cursors, column, sheet, at);
        nulls += (n - count_ones(&sheet[at..values])) as u64;
        at = write_values(rows, cursors, column, sheet, values);
    }
    Written { bytes: at, nulls }
}

// Each row's cursor starts at the row's offset.
fn start(offsets: &[u64], cursors: &mut [usize])
    requires { length cursors.old ≤ length offsets.now }
    ensures { cursors.new ≡ take (length cursors.old) offsets.now }
{
    for (r, cursor) in cursors.iter_mut().enumerate() {
        *cursor = offsets[r] as usize;
    }
}

// The cleared sheet of n rows that passed the checks, written in front of the lent sheet, with a cursor for each of them.
fn write_rows(
    schema: Schema,
    n: usize,
    rows: &[u8],
    offsets: &[u64],
    cursors: &mut [usize],
    sheet: &mut [u8],
) -> Written
    requires cursors_len { length cursors.old ≡ n }
    requires decodable { Decodable schema n rows.now offsets.now sheet.old }
    ensures { Clears n (cols_of schema) (rows_slots (cols_of schema) (cut_rows n rows.now offsets.now))
        sheet.old sheet.new result }
{
    start(offsets, cursors);
    write_columns(schema, rows, cursors, sheet)
}

// The same with local cursors.
pub fn write_sheet(
    schema: Schema,
    n: usize,
    rows: &[u8],
    offsets: &[u64],
    sheet: &mut [u8],
) -> Written
    requires { Decodable schema n rows.now offsets.now sheet.old }
    ensures { Clears n (cols_of schema) (rows_slots (cols_of schema) (cut_rows n rows.now offsets.now))
        sheet.old sheet.new result }
{
    with_numbers(
        n,
        &mut |cursors| write_rows(schema, n, rows, offsets, cursors, sheet),
    )
}
