// The walk over rows and columns.
ghost use Rattle.std.specs.Prelude.{◌≤◌};
ghost use Rattle.format.specs.Limits.{max_rows};
ghost use Rattle.format.specs.Schemas.{Limited, cols_of};
ghost use Rattle.format.specs.Passed.{AllLie};
ghost use Rattle.format.specs.Entries.{cut_rows};
ghost use Rattle.row_reader.specs.Walk.{Finds};

use field_reader::{added_bytes, read_field};
use format::{FieldFault, Refusal, RowFault, Schema};
use quick_rows::pass_rows;

// The first fault in row order, then column order, looked for from the first row on that the quick check did not pass; each field is
// read from the part of the row that the previous one left.
// A fault's place in the row is the row's length less the bytes left from the bad byte on. Of rows without one, the bytes of the values in
// variable columns are counted.
pub fn check_fields(
    schema: Schema,
    n: usize,
    rows: &[u8],
    offsets: &[u64],
) -> Result<usize, Refusal>
    requires n_le_max_rows { n ≤ max_rows }
    requires limited { Limited schema }
    requires all_lie { AllLie n rows.now offsets.now }
    ensures { Finds (cols_of schema) (cut_rows n rows.now offsets.now) result }
{
    let count = schema.count;
    let columns = schema.columns;
    let passed = pass_rows(schema, n, rows, offsets);
    let mut check = Ok(());
    let mut bytes: usize = passed.bytes;
    'rows: for r in passed.rows..n {
        let start = offsets[r] as usize;
        let end = offsets[r + 1] as usize;
        let row = &rows[start..end];
        let mut at = 0;
        for c in 0..count {
            let column = columns[c];
            let rest = &row[at..];
            // No `?`: the label leaves both loops, with the place of the fault.
            let read = match read_field(rest, column) {
                Ok(read) => read,
                Err(FieldFault(fault, left)) => {
                    let place = row.len() - left;
                    check = Err(Refusal::Row(fault, r, c, place));
                    break 'rows;
                }
            };
            at += read.length;
            if let Some(value) = read.value {
                bytes += added_bytes(column, value);
            }
        }
        if at < row.len() {
            check = Err(Refusal::Row(RowFault::Extra, r, count, at));
            break 'rows;
        }
    }
    check.and(Ok(bytes))
}
