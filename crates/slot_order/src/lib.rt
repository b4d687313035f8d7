// Two slots of a checked column.
#![tactic(auto)]

ghost use Rattle.std.specs.Prelude.{◌≡◌, false, cond, ◌<◌, ◌≤◌, drop};
ghost use Rattle.std.proofs.Math.Option.{some};
ghost use Prim.Native.Nat.Ordering.{gt};
ghost use Prim.Native.Nat.Ordering.{lt};
ghost use Rattle.format.specs.Limits.{max_rows};
ghost use Rattle.format.specs.Kinds.{column_shape};
ghost use Rattle.format.specs.Fold.{folded_slot};
ghost use Rattle.format.specs.Sheet.{layout, packed as packedFor, value_at, column_fault, slot_at};
ghost use Rattle.format.specs.Value.{slot_order};
ghost use Rattle.format.specs.Passed.{Passes};
ghost use Rattle.byte_order.specs.Answers.{ordering};

use bits::{bit, packed};
use format::Column;
use std::cmp::Ordering;
use value_order::order_values;

// A value against a null, which stands where nulls first says, whatever descending says.
fn value_to_null(nulls_first: bool) -> Ordering
    ensures { result ≡ ordering (cond nulls_first gt lt) }
{
    if nulls_first {
        Ordering::Greater
    } else {
        Ordering::Less
    }
}

// Two slots that have values, as encode takes them.
fn order_valid(
    column: Column,
    n: usize,
    a: &[u8],
    i: usize,
    m: usize,
    b: &[u8],
    j: usize,
) -> Ordering
    requires n_le_max_rows { (n ≤ max_rows) × (i < n) }
    requires m_le_max_rows { (m ≤ max_rows) × (j < m) }
    requires passes { Passes (λ c. column_fault false (layout column) n c a.now) }
    requires passes_2 { Passes (λ c. column_fault false (layout column) m c b.now) }
    ensures { result ≡ ordering (slot_order (column_shape column) column.options
        (folded_slot (column_shape column) column.options (some (value_at (layout column) n (drop (packedFor n) a.now) i)))
        (folded_slot (column_shape column) column.options (some (value_at (layout column) m (drop (packedFor m) b.now) j)))) }
{
    let from = packed(n);
    let start = packed(m);
    let found = order_values(column, n, &a[from..], i, m, &b[start..], j);
    if column.options.descending {
        return found.reverse();
    }
    found
}

// The slot of row i of n in the column in front of a, and that of row j of m in the column in front of b, as encode takes them.
pub fn order_slots(
    column: Column,
    n: usize,
    a: &[u8],
    i: usize,
    m: usize,
    b: &[u8],
    j: usize,
) -> Ordering
    requires n_le_max_rows { (n ≤ max_rows) × (i < n) }
    requires m_le_max_rows { (m ≤ max_rows) × (j < m) }
    requires passes { Passes (λ c. column_fault false (layout column) n c a.now) }
    requires passes_2 { Passes (λ c. column_fault false (layout column) m c b.now) }
    ensures { result ≡ ordering (slot_order (column_shape column) column.options
        (folded_slot (column_shape column) column.options (slot_at (layout column) n a.now i))
        (folded_slot (column_shape column) column.options (slot_at (layout column) m b.now j))) }
{
    let nulls_first = column.options.nulls_first;
    if bit(a, i) {
        if bit(b, j) {
            return order_valid(column, n, a, i, m, b, j);
        }
        return value_to_null(nulls_first);
    }
    if bit(b, j) {
        return value_to_null(nulls_first).reverse();
    }
    Ordering::Equal
}
