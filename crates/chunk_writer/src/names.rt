// Columns of variable bytes.
ghost use Rattle.std.specs.Prelude.{◌≡◌, true, false, ◌<◌, ◌≤◌, length};
ghost use Rattle.format.specs.declared.Kind.TheVariants.{Variable};
ghost use Rattle.format.specs.Limits.{max_rows};
ghost use Rattle.format.specs.Sheet.{column_fault, layout};
ghost use Rattle.format.specs.Passed.{Passes};
ghost use Rattle.chunk_writer.specs.Cursors.{Roomy, WroteEach, slot_field};
ghost use Rattle.chunk_writer.specs.Valid.{AllValid};

use crate::valid::has_value;
use field_writer::put_name;
use format::Column;

// Where the values stand is decided outside of the loop; `full` says that all rows have one.
pub fn write_names(
    full: bool,
    column: Column,
    n: usize,
    part: &[u8],
    from: usize,
    to: usize,
    rows: &mut [u8],
    offsets: &mut [u64],
)
    requires kind_value { column.kind ≡ Variable }
    requires n_le_max_rows { (n ≤ max_rows) × (from ≤ to) × (to ≤ n) × (n < length offsets.old) }
    requires passes { Passes (λ c. column_fault false (layout column) n c part.now) }
    requires roomy { Roomy column n part.now from to (length rows.old) offsets.old }
    requires all_valid { full ≡ true → AllValid part.now from to }
    ensures { WroteEach (slot_field column n part.now) from to rows.old offsets.old
        rows.new offsets.new }
{
    let valid = bits::packed(n);
    let values = &part[valid..];
    for r in from..to {
        let at = offsets[r + 1] as usize;
        let bit = has_value(full, part, r);
        offsets[r + 1] = put_name(bit, values, n, r, column.options, rows, at) as u64;
    }
}
