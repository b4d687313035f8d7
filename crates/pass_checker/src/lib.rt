// The check of a pass: 6, 14, 15, 12, 26.
#![tactic(auto)]

ghost use Rattle.std.specs.Prelude.{◌≡◌, ◌≤◌};
ghost use Rattle.format.specs.Limits.{max_rows};
ghost use Rattle.format.specs.Passed.{Cuts};
ghost use Rattle.format.specs.Entries.{cut_rows};
ghost use Rattle.format.specs.Batch.{order_fault, pass_fault};

use format::Refusal;
use offsets::check_offsets;
use row_order::row_below;

// 26: the first row of n that is below the one before it.
pub fn check_order(pass: usize, n: usize, rows: &[u8], offsets: &[u64]) -> Result<(), Refusal>
    requires n_le_max_rows { n ≤ max_rows }
    requires cuts { Cuts n rows.now offsets.now }
    ensures { result ≡ order_fault pass (cut_rows n rows.now offsets.now) }
{
    for r in 1..n {
        if row_below(rows, offsets, r, rows, offsets, r - 1) {
            return Err(Refusal::OutOfOrder(pass, r));
        }
    }
    Ok(())
}

// The row count, the offsets, then the order.
pub fn check_pass(pass: usize, n: u64, rows: &[u8], offsets: &[u64]) -> Result<(), Refusal>
    ensures { result ≡ pass_fault pass n rows.now offsets.now }
{
    if format::MAX_ROWS < n {
        return Err(Refusal::ManyRows(n));
    }
    check_offsets(n as usize, rows, offsets)?;
    check_order(pass, n as usize, rows, offsets)
}
