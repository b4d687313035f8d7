// The field of one slot of a checked column, from a place of the row buffer on. Each writer returns the place after the field.
#![tactic(auto)]

ghost use Rattle.std.specs.Prelude.{◌≡◌, false, ◌+◌, ◌<◌, ◌≤◌, length};
ghost use Rattle.std.proofs.Math.Option.{none, some};
ghost use Rattle.format.specs.declared.Kind.TheVariants.{Variable};
ghost use Rattle.format.specs.Limits.{max_rows};
ghost use Rattle.format.specs.Kinds.{variable as variableShape, column_shape};
ghost use Rattle.format.specs.Fold.{folded_slot};
ghost use Rattle.format.specs.Field.{field, field_length};
ghost use Rattle.format.specs.Sheet.{ended, layout, values_fault, value_at, column_fault, slot_at, slot_if};
ghost use Rattle.format.specs.Passed.{Ended, Passes};
ghost use Rattle.basics.specs.Wrote.{Wrote};

use format::{Column, Kind, SortOptions};
use sheet_ends::end_at;

// Null of a fixed kind: the null byte, and zeros to the length of a value.
// A kind that is not variable, here and above: `Kind` is one enum for every walk, and a second one would need a match to get.
fn put_null(column: Column, rows: &mut [u8], at: usize) -> usize
    requires fact { column.kind ≡ Variable → ⊥ }
    requires none_in_bounds { at + field_length (column_shape column) none ≤ length rows.old }
    ensures { Wrote (field (column_shape column) column.options none) at rows.old rows.new result }
{
    let kind = column.kind;
    let options = column.options;
    match kind {
        // Not handed.
        Kind::Variable => at,
        _ => null_writer::encode_null(rows, at, column_facts::width(kind), options),
    }
}

// Variable bytes: the value of row r lies between ends r and r + 1. The ends stand before it, so that eight bytes do.
// A row below a count of rows, here and above: a pair of numbers, of which a type would be no plainer than the two.
fn put_variable(
    values: &[u8],
    n: usize,
    r: usize,
    options: SortOptions,
    rows: &mut [u8],
    at: usize,
) -> usize
    requires n_le_max_rows { (n ≤ max_rows) × (r < n) }
    requires ended { Ended n values.now }
    requires r_in_bounds { at + field_length variableShape (some (value_at ended n values.now r)) ≤ length rows.old }
    ensures { Wrote (field variableShape options (some (value_at ended n values.now r))) at rows.old rows.new result }
{
    let data = 4 * (n + 1);
    let from = data + end_at(values, r);
    let to = data + end_at(values, r + 1);
    variable_writer::encode_one(rows, at, &values[..to], from, options)
}

// The slot of row r in a column of variable bytes, out of the values of the column: its value, or the null byte.
pub fn put_name(
    valid: bool,
    values: &[u8],
    n: usize,
    r: usize,
    options: SortOptions,
    rows: &mut [u8],
    at: usize,
) -> usize
    requires n_le_max_rows { (n ≤ max_rows) × (r < n) }
    requires ended { Ended n values.now }
    requires r_in_bounds { at + field_length variableShape (slot_if valid (value_at ended n values.now r)) ≤ length rows.old }
    ensures { Wrote (field variableShape options (slot_if valid (value_at ended n values.now r))) at
        rows.old rows.new result }
{
    if valid {
        return put_variable(values, n, r, options, rows, at);
    }
    variable_writer::encode_null(rows, at, options)
}

// The value of row r in a fixed column, out of its values, folded where the column folds. Two tests before encode's match, and not a match around it: the
// optimiser makes one jump of these.
fn put_value(values: &[u8], n: usize, r: usize, column: Column, rows: &mut [u8], at: usize) -> usize
    requires fact { column.kind ≡ Variable → ⊥ }
    requires n_le_max_rows { (n ≤ max_rows) × (r < n) }
    requires passes { Passes (λ c. values_fault (layout column) n c values.now) }
    requires r_in_bounds { at + field_length (column_shape column) (some (value_at (layout column) n values.now r)) ≤ length rows.old }
    ensures { Wrote (field (column_shape column) column.options (folded_slot (column_shape column) column.options
        (some (value_at (layout column) n values.now r)))) at rows.old rows.new result }
{
    let kind = column.kind;
    let options = column.options;
    // Not handed.
    if let Kind::Variable = kind {
        return at;
    }
    if let Kind::Bool = kind {
        return null_writer::encode_boolean(rows, at, bits::bit(values, r), options);
    }
    fixed_writer::encode(rows, at, kind, values, r, options)
}

// The slot of row r of the fixed column in front of the part, as encode takes it.
pub fn put_field(
    part: &[u8],
    n: usize,
    r: usize,
    column: Column,
    rows: &mut [u8],
    at: usize,
) -> usize
    requires fact { column.kind ≡ Variable → ⊥ }
    requires n_le_max_rows { (n ≤ max_rows) × (r < n) }
    requires passes { Passes (λ c. column_fault false (layout column) n c part.now) }
    requires r_in_bounds { at + field_length (column_shape column) (slot_at (layout column) n part.now r) ≤ length rows.old }
    ensures { Wrote (field (column_shape column) column.options (folded_slot (column_shape column) column.options
        (slot_at (layout column) n part.now r))) at rows.old rows.new result }
{
    if bits::bit(part, r) {
        let valid = bits::packed(n);
        return put_value(&part[valid..], n, r, column, rows, at);
    }
    put_null(column, rows, at)
}
