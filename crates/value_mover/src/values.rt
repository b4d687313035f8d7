// The values of the bytewise kinds, each of as many bytes, and cursors that move by one length.
ghost use Rattle.std.specs.Prelude.{◌≡◌, true, map, ℕ, ◌+◌, ◌^◌, ◌<◌, ◌≤◌, length, get_or};
ghost use Rattle.basics.specs.Wrote.{Wrote};
ghost use Rattle.fixed_decoder.specs.Bytewise.{bytewise};
ghost use Rattle.cursors.specs.Cursors.{Readable, nexts_at, wides_at};

use column_facts::width;
use fixed_decoder::decode;
use format::Column;

// Each value decoded, and its cursor moved past the field.
pub fn move_values(
    rows: &[u8],
    cursors: &mut [usize],
    column: Column,
    sheet: &mut [u8],
    at: usize,
) -> usize
    requires kind_value { bytewise column.kind ≡ true }
    requires readable { Readable column rows.now cursors.old }
    requires cursors_in_bounds { at + length (wides_at column rows.now cursors.old) ≤ length sheet.old }
    ensures wrote { Wrote (wides_at column rows.now cursors.old) at sheet.old sheet.new result }
    ensures cursors_after { cursors.new ≡ nexts_at column rows.now cursors.old }
{
    let kind = column.kind;
    let options = column.options;
    let w = width(kind);
    let mut place = at;
    for cursor in cursors.iter_mut() {
        let p = *cursor;
        decode(&rows[p..], kind, options, sheet, place);
        *cursor = p + 1 + w;
        place += w;
    }
    place
}

// Every cursor moved on.
pub fn advance(cursors: &mut [usize], by: usize)
    requires { (r : ℕ) → r < length cursors.old → get_or cursors.old r 0 + by < 2 ^ 64 }
    ensures { cursors.new ≡ map (λ p. p + by) cursors.old }
{
    for cursor in cursors.iter_mut() {
        *cursor += by;
    }
}
