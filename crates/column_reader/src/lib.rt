// A column list held as columns: judged by its numbers, and read into an array of columns.
#![tactic(auto)]

ghost use Rattle.std.specs.Prelude.{◌≡◌};
ghost use Rattle.format.specs.Described.{held, held_fault, described};
ghost use Rattle.list_reader.specs.Listing.{ListedAs};

use descriptions::{check_numbers, held_width};
use format::{Column, Refusal, Schema};

// The first fault of description i.
fn check_column(column: Column, i: usize) -> Result<(), Refusal>
    ensures { result ≡ held_fault i (held column) }
{
    let kind = column.kind;
    let options = column.options;
    check_numbers(
        i,
        u8::from(kind),
        false,
        u8::from(options),
        held_width(kind),
    )
}

// Columns that the caller lends, left to right: at each 5, then its own faults. They are copied into an array as they pass. No Vec: the library
// has no heap.
pub fn judge(columns: &[Column]) -> Result<Schema, Refusal>
    ensures { ListedAs (described columns.now) result }
{
    if columns.len() == 0 {
        return Err(Refusal::ListCut(0));
    }
    let mut copy = [Column::default(); format::MAX_COLUMNS];
    for (i, column) in columns.iter().enumerate() {
        if i == format::MAX_COLUMNS {
            return Err(Refusal::ManyColumns(i));
        }
        check_column(*column, i)?;
        copy[i] = *column;
    }
    Ok(Schema {
        columns: copy,
        count: columns.len(),
    })
}
