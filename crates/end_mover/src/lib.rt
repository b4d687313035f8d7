// Variable bytes: the ends of the values, and their bytes.
#![tactic(auto)]

ghost use Rattle.std.specs.Prelude.{◌≡◌, ◌++◌, ◌+◌, ◌≤◌, length};
ghost use Rattle.basics.specs.Wrote.{Wrote};
ghost use Rattle.format.specs.Limits.{max_rows};
ghost use Rattle.cursors.specs.Cursors.{Readable, nexts_at};
ghost use Rattle.end_mover.specs.Ends.{variable_column, ends_at, data_at};

use format::SortOptions;
use number::Word;
use variable_reader::decode_blocks;

// Ends and bytes in one pass, since it is known where the bytes start. The ends are 0, and after each value the count of the
// bytes so far, four bytes each, low byte first; each value is copied behind them, and its cursor moved past the field.
pub fn move_ended(
    rows: &[u8],
    cursors: &mut [usize],
    options: SortOptions,
    sheet: &mut [u8],
    at: usize,
) -> usize
    requires cursors_len_bound { length cursors.old ≤ max_rows }
    requires readable { Readable (variable_column options) rows.now cursors.old }
    requires cursors_in_bounds { at + length (ends_at options rows.now cursors.old ++ data_at options rows.now cursors.old) ≤ length sheet.old }
    ensures wrote { Wrote (ends_at options rows.now cursors.old ++ data_at options rows.now cursors.old)
        at sheet.old sheet.new result }
    ensures cursors_after { cursors.new ≡ nexts_at (variable_column options) rows.now cursors.old }
{
    let data = at + 4 * (cursors.len() + 1);
    let mut end = at;
    let mut total: usize = 0;
    for cursor in cursors.iter_mut() {
        (total as u32).put(sheet, end);
        let p = *cursor;
        let copied = decode_blocks(&rows[p..], options, sheet, data + total);
        *cursor = p + copied.field;
        total += copied.value;
        end += 4;
    }
    (total as u32).put(sheet, end);
    data + total
}
