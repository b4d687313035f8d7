// Where each row begins: the lengths of its fields are added up at its cursor, and then those of the rows before it.
ghost use Rattle.std.specs.Prelude.{false, ◌^◌, ◌<◌, ◌≤◌, length};
ghost use Rattle.format.specs.Limits.{max_rows};
ghost use Rattle.format.specs.Sheet.{column_fault, ended, layout};
ghost use Rattle.format.specs.Passed.{Passes};
ghost use Rattle.row_writer.specs.Rows.{AllStand, row_at, rows_total};
ghost use Rattle.row_writer.specs.Starts.{CursorsAt, Fits, GrownFits, Longer, grown, row_start, start_of};

use format::{Column, Kind};
use sheet_lengths::variable_length;
use sheet_reader::sheet::Facts;

// Every cursor is 0.
// A cursor for each row, here and below: it is about a slice and a number, which no type says in plainer words.
fn clear(n: usize, offsets: &mut [u64])
    requires { n < length offsets.old }
    ensures { CursorsAt (λ r. 0) n offsets.old offsets.new }
{
    offsets[1..n + 1].fill(0);
}

// The lengths of the fields in the column of variable bytes in front of the part.
fn add_lengths(part: &[u8], n: usize, offsets: &mut [u64])
    requires n_le_max_rows { (n ≤ max_rows) × (n < length offsets.old) }
    requires passes { Passes (λ c. column_fault false ended n c part.now) }
    requires grown_fits { GrownFits n part.now offsets.old }
    ensures { CursorsAt (grown n part.now offsets.old) n offsets.old offsets.new }
{
    for r in 0..n {
        offsets[r + 1] = offsets[r + 1] + variable_length(part, n, r);
    }
}

// The field of a column: fixed ones are of one length in every row, which is returned.
fn add_column(column: Column, n: usize, part: &[u8], fixed: u64, offsets: &mut [u64]) -> u64
    requires n_nonzero { (0 < n) × (n ≤ max_rows) × (n < length offsets.old) }
    requires passes { Passes (λ c. column_fault false (layout column) n c part.now) }
    requires fits { Fits column n part.now fixed offsets.old }
    ensures { Longer column n part.now fixed offsets.old result offsets.new }
{
    let kind = column.kind;
    match kind {
        Kind::Variable => {
            add_lengths(part, n, offsets);
            fixed
        }
        _ => fixed + (1 + column_facts::width(kind)) as u64,
    }
}

// From the lengths of the rows to where they begin.
fn add_up(n: usize, fixed: u64, offsets: &mut [u64])
    requires n_in_bounds { n < length offsets.old }
    requires n_bound { start_of fixed offsets.old n < 2 ^ 64 }
    ensures { CursorsAt (start_of fixed offsets.old) n offsets.old offsets.new }
{
    let mut at: u64 = 0;
    for r in 0..n {
        let length = offsets[r + 1];
        offsets[r + 1] = at;
        at += fixed + length;
    }
}

// The starts of the rows of a checked sheet, at their cursors.
pub fn write_starts(n: usize, sheet: &[u8], facts: &[Facts], offsets: &mut [u64])
    requires n_nonzero { (0 < n) × (n ≤ max_rows) × (n < length offsets.old) }
    requires all_stand { AllStand n sheet.now facts.now }
    requires total_bound { rows_total n sheet.now facts.now < 2 ^ 64 }
    ensures { CursorsAt (row_start (row_at n sheet.now facts.now)) n offsets.old offsets.new }
{
    clear(n, offsets);
    let mut fixed: u64 = 0;
    for f in facts {
        fixed = add_column(f.column, n, &sheet[f.base..], fixed, offsets);
    }
    add_up(n, fixed, offsets);
}
