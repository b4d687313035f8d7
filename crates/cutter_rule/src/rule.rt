// The rule on a state: what every state from a start or a call keeps.
ghost use Rattle.std.specs.Prelude.{◌≡◌, Bool, cond, ◌&&◌, ℕ, ◌+◌, ◌*◌, ◌-◌, ◌^◌, ◌≤◌, length, ltb};
ghost use Rattle.format.specs.declared.Spot.TheVariants.{Nulls, Value, Block};
ghost use Rattle.format.specs.Limits.{max_columns, max_width, max_total};
ghost use Rattle.format.specs.Kinds.{column_shape, shape, value_bytes};
ghost use Rattle.format.specs.Numbers.{four};
ghost use Rattle.format.specs.CutterRule.{within as withinOf, may_fold, column_kept, field_seen, spot_kept, fewest as fewestOf, most as most_of, standing_kept, emptied, fault_kept, numbers_kept, keeps as keepsOf};
ghost use Rattle.cutter_rule.specs.Standing.{is_variable, Small};
ghost use Rattle.cutter_rule.specs.Sums.{Summed, sums_most};

use crate::Sums;
use block_moves::bytes_before;
use blocks::block_size;
use column_facts::width;
use format::{Column, Cutter, Kind, MAX_COLUMNS, MAX_TOTAL, MAX_WIDTH, Refusal, Returned, Spot};

// The longest field: that of 65,535 variable bytes.
const MAX_FIELD: u64 = 67588;

// The last block that a value within its limit may begin: no more than 65,535 bytes come before it.
const LAST_BLOCK: usize = 2050;

fn within(low: u64, high: u64, n: u64) -> bool
    ensures { result ≡ withinOf low high n }
{
    if n < low {
        return false;
    }
    n <= high
}

// Only floats fold.
fn may_fold(kind: Kind) -> bool
    ensures { result ≡ may_fold (shape kind) }
{
    match kind {
        Kind::F16 => true,
        Kind::F32 => true,
        Kind::F64 => true,
        Kind::Bool => false,
        Kind::Variable => false,
        _ => false,
    }
}

// A column such as a list may have.
fn column_kept(column: Column) -> bool
    ensures { result ≡ column_kept column }
{
    let kind = column.kind;
    let options = column.options;
    if MAX_WIDTH < width(kind) {
        return false;
    }
    if options.fold {
        return may_fold(kind);
    }
    true
}

// The fewest bytes of a field, and the most.
fn fewest(kind: Kind) -> u64
    requires { value_bytes kind ≤ max_width }
    ensures { (result ≡ fewestOf (shape kind)) × (result ≤ 1025) }
{
    match kind {
        Kind::Variable => 1,
        _ => 1 + width(kind) as u64,
    }
}

fn most(kind: Kind) -> u64
    requires { value_bytes kind ≤ max_width }
    ensures { (result ≡ most_of (shape kind)) × (result ≤ 67588) }
{
    match kind {
        Kind::Variable => MAX_FIELD,
        _ => 1 + width(kind) as u64,
    }
}

fn part(on: bool, n: u64) -> u64
    ensures { result ≡ cond on n 0 }
{
    if on { n } else { 0 }
}

// One pass over the columns; it ends at one that no list may have.
fn sum_columns(columns: &[Column], column: usize) -> Sums
    requires { length columns.now ≤ max_columns }
    ensures { Summed columns.now column result }
{
    let mut low: u64 = 0;
    let mut high: u64 = 0;
    let mut few: u64 = 0;
    let mut many: u64 = 0;
    for (c, next) in columns.iter().enumerate() {
        if !column_kept(*next) {
            return Sums {
                kept: false,
                low: low,
                high: high,
                fewest: few,
                most: many,
            };
        }
        let kind = next.kind;
        let least = fewest(kind);
        let longest = most(kind);
        low += part(c < column, least);
        high += part(c < column, longest);
        few += least;
        many += longest;
    }
    Sums {
        kept: true,
        low: low,
        high: high,
        fewest: few,
        most: many,
    }
}

// ---- the field that is being read

// After a fixed null's lead: a byte is missing still, and a bad byte is one of those seen.
fn null_kept(kind: Kind, row: u64, seen: usize, known: u64) -> bool
    ensures { (fold : Bool) → result ≡ spot_kept (shape kind) fold row (Nulls seen known) }
{
    if width(kind) <= seen {
        return false;
    }
    if known == 0 {
        return true;
    }
    if row <= known {
        return false;
    }
    if row < seen as u64 {
        return true;
    }
    row - seen as u64 <= known
}

// What the value bytes of a float that folds spell.
fn spelt_kept(seen: usize, spelt: u64) -> bool
    ensures { result ≡ ltb spelt (256 ^ seen) }
{
    if seen < 8 {
        return spelt >> (8 * seen) == 0;
    }
    true
}

// After a fixed value's 01.
fn value_kept(kind: Kind, fold: bool, row: u64, seen: usize, spelt: u64) -> bool
    ensures { result ≡ spot_kept (shape kind) fold row (Value seen spelt) }
{
    if width(kind) <= seen {
        return false;
    }
    if !fold {
        return spelt < 1;
    }
    if may_fold(kind) {
        return spelt_kept(seen, spelt);
    }
    spelt < 1
}

fn is_variable(kind: Kind) -> bool
    ensures { result ≡ is_variable (shape kind) }
{
    match kind {
        Kind::Variable => true,
        _ => false,
    }
}

// In a block: its number, the bytes seen, and marks for these alone.
fn block_kept(kind: Kind, k: usize, seen: usize, marks: u64) -> bool
    ensures { (fold : Bool) (row : ℕ) → result ≡ spot_kept (shape kind) fold row (Block k seen marks) }
{
    if !is_variable(kind) {
        return false;
    }
    if LAST_BLOCK < k {
        return false;
    }
    if block_size(k) < seen {
        return false;
    }
    marks >> seen == 0
}

fn spot_kept(column: Column, row: u64, spot: Spot) -> bool
    ensures { result ≡ spot_kept (column_shape column) column.options.fold row spot }
{
    let kind = column.kind;
    let options = column.options;
    match spot {
        Spot::Start => true,
        Spot::Nulls(seen, known) => null_kept(kind, row, seen, known),
        Spot::Value(seen, spelt) => value_kept(kind, options.fold, row, seen, spelt),
        Spot::Block(k, seen, marks) => block_kept(kind, k, seen, marks),
    }
}

// How many bytes of the field came before its spot.
fn field_seen(spot: Spot) -> u64
    requires { Small spot }
    ensures { (result ≡ field_seen spot) × (result ≤ 70000) }
{
    match spot {
        Spot::Start => 0,
        Spot::Nulls(seen, _) => seen as u64 + 1,
        Spot::Value(seen, _) => seen as u64 + 1,
        Spot::Block(k, seen, _) => (bytes_before(k) + k + seen) as u64 + 1,
    }
}

// ---- the row and the stream

// Before this row the stream has the rows that ended: each has at least so many bytes, and at most so many.
fn stream_kept(low: u64, high: u64, rows: u64, row: u64, bytes: u64) -> bool
    requires { (1 ≤ low) × (low ≤ sums_most) × (high ≤ sums_most) }
    ensures { result ≡ (withinOf row max_total bytes && withinOf (rows * low) (rows * high) (bytes - row)) }
{
    if !within(row, MAX_TOTAL, bytes) {
        return false;
    }
    if MAX_TOTAL < rows {
        return false;
    }
    within(rows * low, rows * high, bytes - row)
}

// No refusal stands.
fn stands(state: &Cutter) -> bool
    ensures { result ≡ standing_kept state.now }
{
    let count = state.schema.count;
    if MAX_COLUMNS < count {
        return false;
    }
    let columns = state.schema.in_use();
    let c = state.column;
    let sums = sum_columns(columns, c);
    if !sums.kept {
        return false;
    }
    if count <= c {
        return false;
    }
    let row = state.row;
    if !spot_kept(columns[c], row, state.spot) {
        return false;
    }
    let seen = field_seen(state.spot);
    let low = sums.low + seen;
    let high = sums.high + seen;
    if !within(low, high, row) {
        return false;
    }
    stream_kept(sums.fewest, sums.most, state.rows, row, state.bytes)
}

// ---- a refused state

// No columns, no counts.
fn emptied(state: &Cutter) -> bool
    ensures { result ≡ emptied state.now }
{
    if state.schema.count != 0 {
        return false;
    }
    if state.rows != 0 {
        return false;
    }
    if state.bytes != 0 {
        return false;
    }
    if state.row != 0 {
        return false;
    }
    if state.column != 0 {
        return false;
    }
    match state.spot {
        Spot::Start => true,
        _ => false,
    }
}

// Faults that show at a byte.
fn fault_kept(number: u64) -> bool
    ensures { result ≡ fault_kept number }
{
    if within(17, 21, number) {
        return true;
    }
    if number == 23 {
        return true;
    }
    number == 28
}

// 1 to 5, 12, and row faults, by their numbers.
fn numbers_kept(number: u64, second: u64, third: u64, fourth: u64) -> bool
    ensures { result ≡ numbers_kept (four number second third fourth) }
{
    if within(1, 5, number) {
        return second <= 4 * MAX_COLUMNS as u64;
    }
    if number == 12 {
        if second != MAX_TOTAL + 1 {
            return false;
        }
        return third <= MAX_TOTAL;
    }
    if !fault_kept(number) {
        return false;
    }
    if MAX_TOTAL <= second {
        return false;
    }
    if MAX_TOTAL - second <= fourth {
        return false;
    }
    third < MAX_COLUMNS as u64
}

// The rule.
pub fn keeps(state: Cutter) -> bool
    ensures { result ≡ keepsOf state }
{
    match state.refusal {
        Ok(()) => stands(&state),
        Err(r) => {
            if !emptied(&state) {
                return false;
            }
            let numbers = Returned::from(r);
            numbers_kept(numbers.0, numbers.1, numbers.2, numbers.3)
        }
    }
}
