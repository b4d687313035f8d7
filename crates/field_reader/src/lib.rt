// One field, by its column's kind: read, and what it adds to its column.
#![tactic(auto)]

ghost use Rattle.std.specs.Prelude.{◌≡◌, ◌<◌};
ghost use Rattle.format.specs.Kinds.{Slot, column_shape};
ghost use Rattle.format.specs.Sheet.{layout};
ghost use Rattle.format.specs.Read.{field_read, read_field};
ghost use Rattle.format.specs.Cleared.{slot_length, added};
ghost use Rattle.field_reader.specs.Counts.{Adds, Counts};

use column_facts::width;
use format::{Column, FieldFault, FieldRead, Kind};
use variable_reader::{Short, read_short};

// The field in front of a row.
pub fn read_field(row: &[u8], column: Column) -> Result<FieldRead, FieldFault>
    ensures { result ≡ field_read row.now (read_field (column_shape column) column.options row.now) }
{
    let kind = column.kind;
    let options = column.options;
    match kind {
        Kind::Bool => fixed_reader::read_boolean(row, options),
        Kind::Variable => variable_reader::read(row, options),
        Kind::F16 => fixed_reader::read_float(row, 2, options),
        Kind::F32 => fixed_reader::read_float(row, 4, options),
        Kind::F64 => fixed_reader::read_float(row, 8, options),
        _ => fixed_reader::read(row, width(kind), options),
    }
}

// The bytes that a value of so many bytes adds to its column: its own in a variable column, none in a fixed one.
pub fn added_bytes(column: Column, value: usize) -> usize
    ensures { (s : Slot) → slot_length s ≡ value → result ≡ added (layout column) s }
{
    let kind = column.kind;
    match kind {
        Kind::Variable => value,
        _ => 0,
    }
}

// An answer that is no fault, in two numbers: how long the field is, and what it adds. A field of no bytes says nothing.
fn counted(answer: Result<FieldRead, FieldFault>, column: Column) -> Short
    ensures { 0 < result.field → Adds column result.field result.value answer }
{
    match answer {
        Ok(read) => Short {
            field: read.length,
            value: read.value.map_or(0, |value| added_bytes(column, value)),
        },
        Err(_) => Short { field: 0, value: 0 },
    }
}

// The field in front of a row, counted so; of variable bytes the short ones are asked for first.
pub fn count_field(row: &[u8], column: Column) -> Short
    ensures { 0 < result.field → Counts column row.now result.field result.value }
{
    let kind = column.kind;
    let options = column.options;
    if let Kind::Variable = kind {
        let short = read_short(row, options);
        if 0 < short.field {
            return short;
        }
    }
    counted(read_field(row, column), column)
}
