// The lengths of the fields of a column that passes, row by row and together.
#![tactic(auto)]

ghost use Rattle.std.specs.Prelude.{◌≡◌, false, ◌*◌, ◌<◌, ◌≤◌};
ghost use Rattle.format.specs.Limits.{max_rows, max_width};
ghost use Rattle.format.specs.Kinds.{value_bytes};
ghost use Rattle.format.specs.Sheet.{column_fault, ended, layout};
ghost use Rattle.format.specs.Entries.{column_total};
ghost use Rattle.format.specs.Field.{max_field};
ghost use Rattle.format.specs.Passed.{Passes};
ghost use Rattle.sheet_lengths.specs.Measures.{variable_length, variable_total};

use bits::packed;
use blocks::padded_length;
use format::{Column, Kind};
use sheet_ends::end_at;

// The field of a null of variable bytes: the null byte only.
const NULL_LENGTH: u64 = 1;

// The length of the field of a row in the column of variable bytes in front of the part: 1 for a null, and that of its value.
// `Passes`, here and above: it is about a layout, n and the bytes together, which no type says in plainer words.
pub fn variable_length(part: &[u8], n: usize, row: usize) -> u64
    requires n_le_max_rows { (n ≤ max_rows) × (row < n) }
    requires passes { Passes (λ c. column_fault false ended n c part.now) }
    ensures { result ≡ variable_length n part.now row }
{
    if bits::bit(part, row) {
        let valid = packed(n);
        let values = &part[valid..];
        return padded_length(end_at(values, row + 1) - end_at(values, row)) as u64;
    }
    NULL_LENGTH
}

// The fields of n rows in the column of variable bytes in front of the part.
fn measure_variable(part: &[u8], n: usize) -> u64
    requires n_le_max_rows { n ≤ max_rows }
    requires passes { Passes (λ c. column_fault false ended n c part.now) }
    ensures value { result ≡ variable_total n part.now }
    ensures upper_bound { result ≤ max_rows * max_field }
{
    let mut total: u64 = 0;
    for row in 0..n {
        total += variable_length(part, n, row);
    }
    total
}

// The fields of n rows in the column in front of the part: fixed ones are of one length.
pub fn measure_column(column: Column, part: &[u8], n: usize) -> u64
    requires n_le_max_rows { n ≤ max_rows }
    requires kind_bound { value_bytes column.kind ≤ max_width }
    requires passes { Passes (λ c. column_fault false (layout column) n c part.now) }
    ensures value { result ≡ column_total column n part.now }
    ensures upper_bound { result ≤ max_rows * max_field }
{
    let kind = column.kind;
    match kind {
        Kind::Variable => measure_variable(part, n),
        _ => (n * (1 + column_facts::width(kind))) as u64,
    }
}
