// The checks of a look-up: the key, then the batch.
#![tactic(auto)]

ghost use Rattle.std.specs.Prelude.{◌≡◌, length, take};
ghost use Rattle.format.specs.Check.{both};
ghost use Rattle.format.specs.Schemas.{Limited, cols_of};
ghost use Rattle.format.specs.Read.{row_fault};
ghost use Rattle.format.specs.Batch.{sorted_fault};
ghost use Rattle.format.specs.Lookup.{key_columns_fault};

use batch_reader::check_rows;
use format::{Refusal, Schema};
use pass_checker::check_order;
use row_reader::check_fields;

// 31, then the key as row 0 of the first k columns.
pub fn check_key(schema: Schema, k: u64, key: &[u8]) -> Result<(), Refusal>
    requires { Limited schema }
    ensures { result ≡ both (key_columns_fault k (cols_of schema)) (row_fault 0 (length key.now) 0 (take k (cols_of schema)) key.now) }
{
    let count = k as usize;
    if count == 0 {
        return Err(Refusal::KeyColumns(count));
    }
    if schema.count < count {
        return Err(Refusal::KeyColumns(count));
    }
    let columns = schema.columns;
    let first = Schema {
        columns: columns,
        count: count,
    };
    let ends = [0, key.len() as u64];
    check_fields(first, 1, key, &ends)?;
    Ok(())
}

// 6, 14, 15, 12, row faults, 26.
pub fn check_batch(schema: Schema, n: u64, rows: &[u8], offsets: &[u64]) -> Result<(), Refusal>
    requires { Limited schema }
    ensures { result ≡ sorted_fault (cols_of schema) n rows.now offsets.now }
{
    if format::MAX_ROWS < n {
        return Err(Refusal::ManyRows(n));
    }
    check_rows(schema, n as usize, rows, offsets)?;
    check_order(0, n as usize, rows, offsets)
}
