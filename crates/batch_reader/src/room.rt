// The bytes of a sheet that its slots do not change.
ghost use Rattle.std.specs.Prelude.{◌≡◌, map, ◌≤◌, ◌*◌};
ghost use Rattle.format.specs.Kinds.{shape, value_bytes};
ghost use Rattle.format.specs.Limits.{max_columns, max_rows, max_width};
ghost use Rattle.format.specs.Lists.{sum};
ghost use Rattle.format.specs.Schemas.{Limited, cols_of};
ghost use Rattle.format.specs.Sheet.{layout, layout_for};
ghost use Rattle.format.specs.Cleared.{frame};
ghost use Rattle.batch_reader.specs.Batch.{widest_frame};

use column_facts::width;
use format::{Kind, Schema};

// Of a column: validity, and the packed bits, the values or the ends.
fn frame_bytes(kind: Kind, n: usize) -> usize
    requires n_le_max_rows { n ≤ max_rows }
    requires kind_bound { value_bytes kind ≤ max_width }
    ensures { (result ≡ frame (layout_for (shape kind)) n) × (result ≤ widest_frame) }
{
    let packed = bits::packed(n);
    match kind {
        Kind::Bool => packed + packed,
        Kind::Variable => packed + 4 * (n + 1),
        _ => packed + n * width(kind),
    }
}

// Of all columns.
pub fn frames(schema: Schema, n: usize) -> usize
    requires n_le_max_rows { n ≤ max_rows }
    requires limited { Limited schema }
    ensures { (result ≡ sum (map (λ col. frame (layout col) n) (cols_of schema))) × (result ≤ max_columns * widest_frame) }
{
    let mut bytes = 0;
    for column in schema.in_use() {
        bytes += frame_bytes(column.kind, n);
    }
    bytes
}
