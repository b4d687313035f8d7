// The check of a batch.
ghost use Rattle.std.specs.Prelude.{◌≤◌};
ghost use Rattle.format.specs.Limits.{max_rows};
ghost use Rattle.format.specs.Schemas.{Limited, cols_of};
ghost use Rattle.batch_reader.specs.Batch.{Checks};

use crate::room::frames;
use format::{Refusal, Schema};
use offsets::check_offsets;
use row_reader::check_fields;

// The offsets, then the rows; and of rows that pass, the bytes of the decoded sheet.
pub fn check_rows(schema: Schema, n: usize, rows: &[u8], offsets: &[u64]) -> Result<usize, Refusal>
    requires n_le_max_rows { n ≤ max_rows }
    requires limited { Limited schema }
    ensures { Checks n (cols_of schema) rows.now offsets.now result }
{
    check_offsets(n, rows, offsets)?;
    let data = check_fields(schema, n, rows, offsets)?;
    Ok(frames(schema, n) + data)
}
