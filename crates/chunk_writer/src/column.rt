// A column by its kind.
ghost use Rattle.std.specs.Prelude.{◌≡◌, false, ◌<◌, ◌≤◌, length};
ghost use Rattle.format.specs.declared.Kind.TheVariants.{Variable};
ghost use Rattle.format.specs.Limits.{max_rows};
ghost use Rattle.format.specs.Sheet.{column_fault, layout};
ghost use Rattle.format.specs.Passed.{Passes};
ghost use Rattle.chunk_writer.specs.Cursors.{Roomy, WroteEach, slot_field};

use crate::names::write_names;
use crate::numbers::write_words;
use crate::valid::all_valid;
use field_writer::put_field;
use format::{Column, Kind};
use number::Coding;

// Any fixed kind, decided in each row.
// The rows of a chunk and their room, here and below: numbers and slices together, which no type says in plainer words.
fn write_fields(
    column: Column,
    n: usize,
    part: &[u8],
    from: usize,
    to: usize,
    rows: &mut [u8],
    offsets: &mut [u64],
)
    requires fact { column.kind ≡ Variable → ⊥ }
    requires n_le_max_rows { (n ≤ max_rows) × (from ≤ to) × (to ≤ n) × (n < length offsets.old) }
    requires passes { Passes (λ c. column_fault false (layout column) n c part.now) }
    requires roomy { Roomy column n part.now from to (length rows.old) offsets.old }
    ensures { WroteEach (slot_field column n part.now) from to rows.old offsets.old
        rows.new offsets.new }
{
    for r in from..to {
        let at = offsets[r + 1] as usize;
        offsets[r + 1] = put_field(part, n, r, column, rows, at) as u64;
    }
}

// The fields of the rows from `from` to before `to`, each at its row's cursor.
pub fn write_column(
    column: Column,
    n: usize,
    part: &[u8],
    from: usize,
    to: usize,
    rows: &mut [u8],
    offsets: &mut [u64],
)
    requires n_le_max_rows { (n ≤ max_rows) × (from ≤ to) × (to ≤ n) × (n < length offsets.old) }
    requires passes { Passes (λ c. column_fault false (layout column) n c part.now) }
    requires roomy { Roomy column n part.now from to (length rows.old) offsets.old }
    ensures { WroteEach (slot_field column n part.now) from to rows.old offsets.old
        rows.new offsets.new }
{
    let all = all_valid(part, from, to);
    let kind = column.kind;
    let fold = column.options.fold;
    let int = Coding::Signed;
    let nat = Coding::Unsigned;
    let real = Coding::Float;
    match kind {
        Kind::I16 => write_words(2, int, false, all, column, n, part, from, to, rows, offsets),
        Kind::U16 => write_words(2, nat, false, all, column, n, part, from, to, rows, offsets),
        Kind::F16 => write_words(2, real, fold, all, column, n, part, from, to, rows, offsets),
        Kind::I32 => write_words(4, int, false, all, column, n, part, from, to, rows, offsets),
        Kind::U32 => write_words(4, nat, false, all, column, n, part, from, to, rows, offsets),
        Kind::F32 => write_words(4, real, fold, all, column, n, part, from, to, rows, offsets),
        Kind::I64 => write_words(8, int, false, all, column, n, part, from, to, rows, offsets),
        Kind::U64 => write_words(8, nat, false, all, column, n, part, from, to, rows, offsets),
        Kind::F64 => write_words(8, real, fold, all, column, n, part, from, to, rows, offsets),
        Kind::MonthDayNano => write_words(
            16, int, false, all, column, n, part, from, to, rows, offsets,
        ),
        Kind::I8 => write_words(1, int, false, all, column, n, part, from, to, rows, offsets),
        Kind::U8 => write_words(1, nat, false, all, column, n, part, from, to, rows, offsets),
        Kind::Variable => write_names(all, column, n, part, from, to, rows, offsets),
        _ => write_fields(column, n, part, from, to, rows, offsets),
    }
}
