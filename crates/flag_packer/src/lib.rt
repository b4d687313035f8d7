// Flags packed into bytes, least bit first: the validity of a column's slots, and the values of a column of bools.
#![tactic(auto)]

ghost use Rattle.std.specs.Prelude.{◌≡◌, ℕ, Bool, map, ◌+◌, ◌≤◌, length};
ghost use Rattle.basics.specs.Wrote.{Wrote};
ghost use Rattle.format.specs.Kinds.{bool, fixed, column_shape};
ghost use Rattle.format.specs.Sheet.{packed};
ghost use Rattle.format.specs.Cleared.{byte_of};
ghost use Rattle.format.specs.Read.{Good};
ghost use Rattle.cursors.specs.Cursors.{Readable, cursor_field};
ghost use Rattle.flag_packer.specs.Flags.{Asks, Tells, flags_at, true_at, valid_at};

use bits::put_bit;
use column_facts::null_sentinel;
use fixed_decoder::decode_boolean;
use format::Column;

// Whether the slot of the field at a cursor is valid. A field is null exactly when its lead byte is a null's.
fn is_valid(rows: &[u8], column: Column, p: usize) -> bool
    requires { Good (cursor_field column rows.now p) }
    ensures { result ≡ valid_at column rows.now p }
{
    rows[p] != null_sentinel(column.options)
}

// Whether the bool of the field at a cursor is set.
fn is_true(rows: &[u8], column: Column, p: usize) -> bool
    requires good { Good (cursor_field column rows.now p) }
    requires boolean { column_shape column ≡ fixed bool }
    ensures { result ≡ true_at column rows.now p }
{
    decode_boolean(&rows[p..], column.options)
}

// What a test answers of eight cursors or fewer, in a byte.
fn pack_byte<F: Fn(usize) -> bool>(cursors: &[usize], test: &F) -> u8
    requires cursors_len_bound { length cursors.now ≤ 8 }
    requires may_ask { Asks (F.pre test.now) cursors.now }
    ensures { (flag : ℕ → Bool) → Tells (F.post test.now) flag cursors.now → result ≡ byte_of (map flag cursors.now) }
{
    let mut byte: u8 = 0;
    for (k, cursor) in cursors.iter().enumerate() {
        let on = test(*cursor);
        byte = put_bit(byte, k as u8, on);
    }
    byte
}

// What a test answers of all cursors, each byte stored once: eight rows make a byte, so that its loop has a known length, and then those that
// are left.
fn pack<F: Fn(usize) -> bool>(cursors: &[usize], test: &F, sheet: &mut [u8], at: usize) -> usize
    requires may_ask { Asks (F.pre test.now) cursors.now }
    requires cursors_in_bounds { at + packed (length cursors.now) ≤ length sheet.old }
    ensures { (flag : ℕ → Bool) → Tells (F.post test.now) flag cursors.now → Wrote (flags_at flag cursors.now) at sheet.old sheet.new result }
{
    let n = cursors.len();
    let full = n / 8;
    for k in 0..full {
        sheet[at + k] = pack_byte(&cursors[8 * k..8 * k + 8], test);
    }
    if n % 8 == 0 {
        return at + full;
    }
    sheet[at + full] = pack_byte(&cursors[8 * full..], test);
    at + full + 1
}

// The validity of all rows' slots.
pub fn pack_valid(
    rows: &[u8],
    cursors: &[usize],
    column: Column,
    sheet: &mut [u8],
    at: usize,
) -> usize
    requires readable { Readable column rows.now cursors.now }
    requires cursors_in_bounds { at + packed (length cursors.now) ≤ length sheet.old }
    ensures { Wrote (flags_at (valid_at column rows.now) cursors.now) at sheet.old sheet.new result }
{
    pack(cursors, &|p| is_valid(rows, column, p), sheet, at)
}

// The bools of a column of bools.
pub fn pack_true(
    rows: &[u8],
    cursors: &[usize],
    column: Column,
    sheet: &mut [u8],
    at: usize,
) -> usize
    requires readable { Readable column rows.now cursors.now }
    requires boolean { column_shape column ≡ fixed bool }
    requires cursors_in_bounds { at + packed (length cursors.now) ≤ length sheet.old }
    ensures { Wrote (flags_at (true_at column rows.now) cursors.now) at sheet.old sheet.new result }
{
    pack(cursors, &|p| is_true(rows, column, p), sheet, at)
}
