// Fields that need no reader: where every value byte is allowed, a field that opens with 01 and is there whole is good, and so is
// the null byte with zeros. How long they are is worked out once a column, outside of the walk.
#![tactic(auto)]

ghost use Rattle.std.specs.Prelude.{◌≡◌, true, ℕ, ◌-◌, ◌<◌, ◌≤◌, length, get_or, drop};
ghost use Rattle.format.specs.Kinds.{value_bytes};
ghost use Rattle.format.specs.Limits.{max_width};
ghost use Rattle.format.specs.Read.{from_bad};
ghost use Rattle.format.specs.Schemas.{Limited, no_column};
ghost use Rattle.plain_fields.specs.Plain.{Lengthy, Opens};

use column_facts::{null_lead, width};
use format::{Column, Kind, MAX_COLUMNS, Schema, SortOptions};
use number::Word;

// The length of such a field, and 0 for a column of bools, of variable bytes or of folded floats.
fn plain_length(column: Column) -> usize
    requires { value_bytes column.kind ≤ max_width }
    ensures { Lengthy column result }
{
    let kind = column.kind;
    let options = column.options;
    if options.fold {
        return 0;
    }
    match kind {
        Kind::Bool => 0,
        Kind::Variable => 0,
        _ => 1 + width(kind),
    }
}

// Those of all columns.
pub fn plain_lengths(schema: Schema) -> [usize; MAX_COLUMNS]
    requires { Limited schema }
    ensures { (c : ℕ) → c < schema.count → Lengthy (get_or schema.columns c no_column) (get_or result c 0) }
{
    // No Vec: the library has no heap.
    let mut lengths = [0usize; MAX_COLUMNS];
    for (c, column) in schema.in_use().iter().enumerate() {
        lengths[c] = plain_length(*column);
    }
    lengths
}

// Whether a field of so many bytes is there whole at a place of a row.
pub fn whole_there(row: &[u8], at: usize, len: usize) -> bool
    requires { at ≤ length row.now }
    ensures { result ≡ true → (0 < len) × (len ≤ length row.now - at) }
{
    if len == 0 {
        return false;
    }
    len <= row.len() - at
}

// Whether it opens with 01 too.
pub fn plain_there(row: &[u8], at: usize, len: usize) -> bool
    requires { at ≤ length row.now }
    ensures { result ≡ true → (0 < len) × (len ≤ length row.now - at) × (get_or row.now at 0 ≡ 1) }
{
    if whole_there(row, at, len) {
        return row[at] == 1;
    }
    false
}

// Whether all bytes are zeros, a word at a time. No value decides where the walk goes on.
fn clear(part: &[u8]) -> bool
    ensures { result ≡ true → from_bad part.now ≡ 0 }
{
    let to = part.len();
    let mut zero = true;
    let mut i = 0;
    // A `while`: its steps are of eight, four or one byte, which a `for` takes three loops for.
    while i < to {
        if 8 <= to - i {
            zero = zero & (u64::low(part, i) == 0);
            i += 8;
        } else if 4 <= to - i {
            zero = zero & (u32::low(part, i) == 0);
            i += 4;
        } else {
            zero = zero & (part[i] == 0);
            i += 1;
        }
    }
    zero
}

// Whether the field that is there whole opens with 01, or is a null. It is no branch, since nulls cannot be foretold.
pub fn slot_there(row: &[u8], at: usize, len: usize, options: SortOptions) -> bool
    requires len_nonzero { 0 < len }
    requires len_in_bounds { len ≤ length row.now - at }
    ensures { result ≡ true → Opens options len (drop at row.now) }
{
    let lead = row[at];
    let zero = clear(&row[at + 1..at + len]);
    (lead == 1) | (null_lead(lead, options) & zero)
}
