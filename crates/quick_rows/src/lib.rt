// The quick check: how many rows in front of a batch are good, and what they add. It knows no fault's place: where it stops, the walk
// of crate `row_reader` looks again.
#![tactic(auto)]

ghost use Rattle.std.specs.Prelude.{◌≤◌};
ghost use Rattle.format.specs.Limits.{max_rows};
ghost use Rattle.format.specs.Schemas.{Limited, cols_of};
ghost use Rattle.format.specs.Passed.{AllLie};
ghost use Rattle.format.specs.Entries.{row_bytes};
ghost use Rattle.quick_rows.specs.Quick.{Rows};

use field_reader::count_field;
use format::Schema;
use plain_fields::{plain_lengths, plain_there, slot_there, whole_there};

// How many rows passed, and the bytes that they add.
#[derive(Clone, Copy)]
pub struct Passed {
    pub rows: usize,
    pub bytes: usize,
}

// A field of a column that has had no null yet passes where it opens with 01, which can be foretold; in a column that has had one, no lead
// byte decides where the walk goes on. What is not plain is counted by its reader.
pub fn pass_rows(schema: Schema, n: usize, rows: &[u8], offsets: &[u64]) -> Passed
    requires n_le_max_rows { n ≤ max_rows }
    requires limited { Limited schema }
    requires all_lie { AllLie n rows.now offsets.now }
    ensures { Rows (cols_of schema) (row_bytes rows.now offsets.now) n result.bytes result.rows }
{
    let count = schema.count;
    let columns = schema.columns;
    let lengths = plain_lengths(schema);
    let mut plain = lengths;
    let mut bytes: usize = 0;
    for r in 0..n {
        let start = offsets[r] as usize;
        let end = offsets[r + 1] as usize;
        let row = &rows[start..end];
        let mut good = true;
        let mut more: usize = 0;
        let mut at = 0;
        for c in 0..count {
            let len = plain[c];
            if plain_there(row, at, len) {
                at += len;
            } else {
                let column = columns[c];
                let slot = lengths[c];
                if whole_there(row, at, slot) {
                    good = good & slot_there(row, at, slot, column.options);
                    at += slot;
                    plain[c] = 0;
                } else {
                    let field = count_field(&row[at..], column);
                    if field.field == 0 {
                        return Passed { rows: r, bytes };
                    }
                    at += field.field;
                    more += field.value;
                }
            }
        }
        if !good {
            return Passed { rows: r, bytes };
        }
        if at < row.len() {
            return Passed { rows: r, bytes };
        }
        bytes += more;
    }
    Passed { rows: n, bytes }
}
