// The sheet: checked column by column, each in the part that the columns before it left. What passes is known by its facts:
// the column, and the place where it stands.
ghost use Rattle.std.specs.Prelude.{◌≡◌, ◌≤◌};
ghost use Rattle.format.specs.Limits.{max_rows};
ghost use Rattle.format.specs.Schemas.{cols_of, Limited};
ghost use Rattle.sheet_reader.specs.Sheets.{SheetedAs};

use format::{Column, Refusal, Schema};
use sheet_columns::{check_column, column_bytes, null_rows};

// What is known of a checked column: what it is, and where it stands in the sheet.
#[derive(Clone, Copy)]
pub struct Facts {
    pub column: Column,
    pub base: usize,
}

// What is known of a sheet that passes: the facts of each column in use, and the null total. No Vec: the library has no heap.
#[derive(Clone, Copy)]
pub struct Sheeted {
    pub facts: [Facts; format::MAX_COLUMNS],
    pub nulls: u64,
}

// The sheet, column by column, and at the end 11.
// `Limited`, here and above: `Schema` is a public field of the public `Cutter`, and so has no invariant.
pub fn check_sheet(schema: Schema, n: usize, sheet: &[u8]) -> Result<Sheeted, Refusal>
    requires n_le_max_rows { n ≤ max_rows }
    requires limited { Limited schema }
    ensures { SheetedAs n (cols_of schema) sheet.now result }
{
    let blank = Facts {
        column: Column::default(),
        base: 0,
    };
    let mut facts = [blank; format::MAX_COLUMNS];
    let mut nulls: u64 = 0;
    let mut at: usize = 0;
    for (c, column) in schema.in_use().iter().enumerate() {
        let part = &sheet[at..];
        check_column(*column, part, n, c)?;
        let next = at + column_bytes(column.kind, part, n);
        facts[c] = Facts {
            column: *column,
            base: at,
        };
        nulls += null_rows(part, n);
        at = next;
    }
    if at < sheet.len() {
        return Err(Refusal::BytesAfter(at));
    }
    Ok(Sheeted { facts, nulls })
}
