// Two values of a checked column, by the order of their keys, folded where the column folds.
ghost use Rattle.std.specs.Prelude.{◌+◌, ◌*◌, ◌<◌, ◌≤◌, length, take, drop};
ghost use Rattle.format.specs.Limits.{max_rows};
ghost use Rattle.format.specs.Kinds.{shape, value_bytes, column_shape};
ghost use Rattle.format.specs.Sheet.{layout, values_fault, value_at};
ghost use Rattle.format.specs.Passed.{Passes};
ghost use Rattle.basics.specs.Wide.{WideKind};
ghost use Rattle.number_order.specs.Orders.{value_key, Ordered};

use crate::bytes::{order_binary, order_variable};
use format::{Column, Kind};
use number::Coding;
use number_order::{order_day_time, order_folded, order_month_day_nano, order_number, order_words};
use std::cmp::Ordering;

// Every fixed kind but bool: value i of a and value j of b. One match, so that a slot costs one jump.
fn order_wide(kind: Kind, fold: bool, a: &[u8], i: usize, b: &[u8], j: usize) -> Ordering
    requires wide_kind { WideKind kind }
    requires kind_in_bounds { (i * value_bytes kind + value_bytes kind ≤ length a.now) × (j * value_bytes kind + value_bytes kind ≤ length b.now) }
    ensures { Ordered (value_key (shape kind) fold (take (value_bytes kind) (drop (i * value_bytes kind) a.now)))
        (value_key (shape kind) fold (take (value_bytes kind) (drop (j * value_bytes kind) b.now))) result }
{
    match kind {
        Kind::I8 => order_number::<u8>(Coding::Signed, a, i, b, j),
        Kind::I16 => order_number::<u16>(Coding::Signed, a, i, b, j),
        Kind::I32 => order_number::<u32>(Coding::Signed, a, i, b, j),
        Kind::I64 => order_number::<u64>(Coding::Signed, a, i, b, j),
        Kind::U8 => order_number::<u8>(Coding::Unsigned, a, i, b, j),
        Kind::U16 => order_number::<u16>(Coding::Unsigned, a, i, b, j),
        Kind::U32 => order_number::<u32>(Coding::Unsigned, a, i, b, j),
        Kind::U64 => order_number::<u64>(Coding::Unsigned, a, i, b, j),
        Kind::F16 => order_folded::<u16>(Coding::Float, fold, a, i, b, j),
        Kind::F32 => order_folded::<u32>(Coding::Float, fold, a, i, b, j),
        Kind::F64 => order_folded::<u64>(Coding::Float, fold, a, i, b, j),
        Kind::DayTime => order_day_time(a, i, b, j),
        Kind::MonthDayNano => order_month_day_nano(a, i, b, j),
        Kind::FixedBinary(w) => order_binary(w as usize, a, i, b, j),
        Kind::I128 => order_words(2, a, i * 2, b, j * 2),
        Kind::I256 => order_words(4, a, i * 4, b, j * 4),
        // Not handed.
        Kind::Bool => Ordering::Equal,
        Kind::Variable => Ordering::Equal,
    }
}

// The values of row i of n in front of a, and of row j of m in front of b.
pub fn order_values(
    column: Column,
    n: usize,
    a: &[u8],
    i: usize,
    m: usize,
    b: &[u8],
    j: usize,
) -> Ordering
    requires n_le_max_rows { (n ≤ max_rows) × (i < n) }
    requires m_le_max_rows { (m ≤ max_rows) × (j < m) }
    requires passes { Passes (λ c. values_fault (layout column) n c a.now) }
    requires passes_2 { Passes (λ c. values_fault (layout column) m c b.now) }
    ensures { Ordered (value_key (column_shape column) column.options.fold (value_at (layout column) n a.now i))
        (value_key (column_shape column) column.options.fold (value_at (layout column) m b.now j)) result }
{
    let kind = column.kind;
    if let Kind::Variable = kind {
        return order_variable(n, a, i, m, b, j);
    }
    if let Kind::Bool = kind {
        return bits::bit(a, i).cmp(&bits::bit(b, j));
    }
    order_wide(kind, column.options.fold, a, i, b, j)
}
