// Byte strings of sheets compared where they stand.
ghost use Rattle.std.specs.Prelude.{◌+◌, ◌*◌, ◌<◌, ◌≤◌, length, take, drop};
ghost use Rattle.format.specs.Limits.{max_rows};
ghost use Rattle.format.specs.Sheet.{ended, value_at};
ghost use Rattle.format.specs.Passed.{Ended};
ghost use Rattle.number_order.specs.Orders.{Ordered};

use byte_order::compare;
use sheet_ends::end_at;
use std::cmp::Ordering;

// Fixed binary: value i of a and value j of b.
pub(crate) fn order_binary(w: usize, a: &[u8], i: usize, b: &[u8], j: usize) -> Ordering
    requires { (i * w + w ≤ length a.now) × (j * w + w ≤ length b.now) }
    ensures { Ordered (take w (drop (i * w) a.now)) (take w (drop (j * w) b.now)) result }
{
    let from = i * w;
    let to = from + w;
    let start = j * w;
    let end = start + w;
    compare(&a[from..to], &b[start..end])
}

// Variable bytes: row i of n values in front of a, and row j of m values in front of b. Each lies between two ends.
// A row below a count of rows, here and above: a pair of numbers, of which a type would be no plainer than the two.
pub(crate) fn order_variable(n: usize, a: &[u8], i: usize, m: usize, b: &[u8], j: usize) -> Ordering
    requires n_le_max_rows { (n ≤ max_rows) × (i < n) }
    requires m_le_max_rows { (m ≤ max_rows) × (j < m) }
    requires ended { Ended n a.now }
    requires ended_2 { Ended m b.now }
    ensures { Ordered (value_at ended n a.now i) (value_at ended m b.now j) result }
{
    let data = 4 * (n + 1);
    let from = data + end_at(a, i);
    let to = data + end_at(a, i + 1);
    let rest = 4 * (m + 1);
    let start = rest + end_at(b, j);
    let end = rest + end_at(b, j + 1);
    compare(&a[from..to], &b[start..end])
}
