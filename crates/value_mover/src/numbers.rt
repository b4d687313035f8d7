// The values of the kinds that are decoded word by word. The column is decided once, outside of the loop: its width and coding are
// constants at each call, so that the optimiser makes a loop for each.
ghost use Rattle.std.specs.Prelude.{◌≡◌, ◌+◌, ◌≤◌, length};
ghost use Rattle.basics.specs.Wide.{WideKind};
ghost use Rattle.basics.specs.Wrote.{Wrote};
ghost use Rattle.fixed_decoder.specs.Worded.{Worded};
ghost use Rattle.cursors.specs.Cursors.{Readable, nexts_at, wides_at};
ghost use Rattle.value_mover.specs.WordKinds.{word_column};

use crate::values::move_values;
use fixed_decoder::slot;
use format::{Column, Kind, SortOptions};
use number::Coding;

// Values of so many bytes: each is stored, and its cursor moved past the field. A width and no type: the 16 bytes of an interval are no word.
fn move_words(
    rows: &[u8],
    cursors: &mut [usize],
    width: usize,
    coding: Coding,
    options: SortOptions,
    sheet: &mut [u8],
    at: usize,
) -> usize
    requires worded { Worded width }
    requires readable { Readable (word_column coding width options) rows.now cursors.old }
    requires cursors_in_bounds { at + length (wides_at (word_column coding width options) rows.now cursors.old) ≤ length sheet.old }
    ensures wrote { Wrote (wides_at (word_column coding width options) rows.now cursors.old) at
        sheet.old sheet.new result }
    ensures cursors_after { cursors.new ≡ nexts_at (word_column coding width options) rows.now cursors.old }
{
    let mut place = at;
    for cursor in cursors.iter_mut() {
        let p = *cursor;
        slot(&rows[p..], width, coding, options, sheet, place);
        *cursor = p + 1 + width;
        place += width;
    }
    place
}

// The values of any fixed kind but bool.
// `Readable`, here and above: it is about a column, rows and cursors together, which no type says in plainer words.
pub fn move_wide(
    rows: &[u8],
    cursors: &mut [usize],
    column: Column,
    sheet: &mut [u8],
    at: usize,
) -> usize
    requires wide_kind { WideKind column.kind }
    requires readable { Readable column rows.now cursors.old }
    requires cursors_in_bounds { at + length (wides_at column rows.now cursors.old) ≤ length sheet.old }
    ensures wrote { Wrote (wides_at column rows.now cursors.old) at sheet.old sheet.new result }
    ensures cursors_after { cursors.new ≡ nexts_at column rows.now cursors.old }
{
    let kind = column.kind;
    let options = column.options;
    match kind {
        Kind::I16 => move_words(rows, cursors, 2, Coding::Signed, options, sheet, at),
        Kind::U16 => move_words(rows, cursors, 2, Coding::Unsigned, options, sheet, at),
        Kind::F16 => move_words(rows, cursors, 2, Coding::Float, options, sheet, at),
        Kind::I32 => move_words(rows, cursors, 4, Coding::Signed, options, sheet, at),
        Kind::U32 => move_words(rows, cursors, 4, Coding::Unsigned, options, sheet, at),
        Kind::F32 => move_words(rows, cursors, 4, Coding::Float, options, sheet, at),
        Kind::I64 => move_words(rows, cursors, 8, Coding::Signed, options, sheet, at),
        Kind::U64 => move_words(rows, cursors, 8, Coding::Unsigned, options, sheet, at),
        Kind::F64 => move_words(rows, cursors, 8, Coding::Float, options, sheet, at),
        Kind::MonthDayNano => move_words(rows, cursors, 16, Coding::Signed, options, sheet, at),
        _ => move_values(rows, cursors, column, sheet, at),
    }
}
