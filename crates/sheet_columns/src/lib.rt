// One column of a sheet, in the part that the columns before it left: checked, its bytes and its null rows.
#![tactic(auto)]

ghost use Rattle.std.specs.Prelude.{◌≡◌, false, ◌≤◌, length, take};
ghost use Rattle.format.specs.Limits.{max_rows, max_width};
ghost use Rattle.format.specs.Kinds.{value_bytes, shape};
ghost use Rattle.format.specs.Sheet.{Layout, layout_for, packed as packedFor, spare_set, bits_fault, required_fault, variable_fault, values_fault, values_bytes, layout, column_fault, column_bytes, column_slots, nulls_in};

use bits::packed;
use format::{Column, Kind, Refusal};
use sheet_ends::{check_ends, end_at};

// Packed bits in front of the part: 7, 8.
// The facts about n, kinds and parts, here and below: `Kind` may hold any width, and the others are about a number and a slice.
fn check_bits(part: &[u8], n: usize, c: usize) -> Result<(), Refusal>
    requires { n ≤ max_rows }
    ensures { result ≡ bits_fault n c part.now }
{
    if part.len() < packed(n) {
        return Err(Refusal::ColumnCut(c));
    }
    if bits::spare(part, n) {
        return Err(Refusal::SpareBit(c));
    }
    Ok(())
}

// The validity bits of a required column, which are there: 27 at the first null row.
fn check_required(required: bool, part: &[u8], n: usize, c: usize) -> Result<(), Refusal>
    requires { packedFor n ≤ length part.now }
    ensures { result ≡ required_fault required n c part.now }
{
    if !required {
        return Ok(());
    }
    let row = bits::first_clear(part, n);
    if row < n {
        return Err(Refusal::Missing(c, row));
    }
    Ok(())
}

// Variable bytes: ends cut 7, row by row 9, 10, then bytes 7; the first end is any.
fn check_variable(part: &[u8], n: usize, c: usize) -> Result<(), Refusal>
    requires { n ≤ max_rows }
    ensures { result ≡ variable_fault n c part.now }
{
    let ends = 4 * (n + 1);
    if part.len() < ends {
        return Err(Refusal::ColumnCut(c));
    }
    check_ends(part, n, c)?;
    if part.len() < ends + end_at(part, n) {
        return Err(Refusal::ColumnCut(c));
    }
    Ok(())
}

// The values of a column in front of the part: 7, 8 for bool, 7 for fixed, and variable bytes as above.
fn check_values(kind: Kind, part: &[u8], n: usize, c: usize) -> Result<(), Refusal>
    requires n_le_max_rows { n ≤ max_rows }
    requires kind_bound { value_bytes kind ≤ max_width }
    ensures { result ≡ values_fault (layout_for (shape kind)) n c part.now }
{
    match kind {
        Kind::Bool => check_bits(part, n, c),
        Kind::Variable => check_variable(part, n, c),
        _ => {
            if part.len() < n * column_facts::width(kind) {
                return Err(Refusal::ColumnCut(c));
            }
            Ok(())
        }
    }
}

// Column c in front of the part: validity 7, 8, of a required column then 27, then its values.
pub fn check_column(column: Column, part: &[u8], n: usize, c: usize) -> Result<(), Refusal>
    requires n_le_max_rows { n ≤ max_rows }
    requires kind_bound { value_bytes column.kind ≤ max_width }
    ensures { result ≡ column_fault column.options.required (layout column) n c part.now }
{
    check_bits(part, n, c)?;
    let required = column.options.required;
    let kind = column.kind;
    let valid = packed(n);
    let missing = check_required(required, part, n, c);
    let values = check_values(kind, &part[valid..], n, c);
    missing.and(values)
}

// The bytes of a column's values, which are there.
fn values_bytes(kind: Kind, part: &[u8], n: usize) -> usize
    requires n_le_max_rows { n ≤ max_rows }
    requires part_in_bounds { values_bytes (layout_for (shape kind)) n part.now ≤ length part.now }
    ensures { result ≡ values_bytes (layout_for (shape kind)) n part.now }
{
    match kind {
        Kind::Bool => packed(n),
        Kind::Variable => 4 * (n + 1) + end_at(part, n),
        _ => n * column_facts::width(kind),
    }
}

// The bytes of a column, which are there.
pub fn column_bytes(kind: Kind, part: &[u8], n: usize) -> usize
    requires n_le_max_rows { n ≤ max_rows }
    requires part_in_bounds { column_bytes (layout_for (shape kind)) n part.now ≤ length part.now }
    ensures { result ≡ column_bytes (layout_for (shape kind)) n part.now }
{
    let valid = packed(n);
    valid + values_bytes(kind, &part[valid..], n)
}

// The null rows of a column whose validity bytes pass: n less their ones.
pub fn null_rows(part: &[u8], n: usize) -> u64
    requires n_le_max_rows { n ≤ max_rows }
    requires n_in_bounds { packedFor n ≤ length part.now }
    requires n_value { spare_set (take (packedFor n) part.now) n ≡ false }
    ensures value { (ly : Layout) → result ≡ nulls_in (column_slots ly n part.now) }
    ensures upper_bound { result ≤ n }
{
    let valid = packed(n);
    (n - bits::count_ones(&part[..valid])) as u64
}
