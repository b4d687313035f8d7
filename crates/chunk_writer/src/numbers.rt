// Columns that are written word by word, in one loop: width and coding, constants at each call, are decided outside of it.
ghost use Rattle.std.specs.Prelude.{◌≡◌, true, length};
ghost use Rattle.format.specs.Fold.{folds};
ghost use Rattle.fixed_decoder.specs.Worded.{worded};
ghost use Rattle.chunk_writer.specs.Cursors.{WroteEach};
ghost use Rattle.word_writer.specs.Words.{Slotted, wide_field};
ghost use Rattle.chunk_writer.specs.Words.{Ready};
ghost use Rattle.chunk_writer.specs.Valid.{AllValid};

use crate::valid::has_value;
use format::Column;
use number::Coding;
use word_writer::put_slot;

// Values of so many bytes, a width and no type, since the 16 bytes of an interval are no word; `full` says that all rows have one.
pub fn write_words(
    width: usize,
    coding: Coding,
    fold: bool,
    full: bool,
    column: Column,
    n: usize,
    part: &[u8],
    from: usize,
    to: usize,
    rows: &mut [u8],
    offsets: &mut [u64],
)
    requires slotted { Slotted coding width }
    requires ready { Ready width n from to part.now (length rows.old) offsets.old }
    requires fold_value { fold ≡ folds (worded coding width) column.options.fold }
    requires all_valid { full ≡ true → AllValid part.now from to }
    ensures { WroteEach (wide_field width (worded coding width) column.options n part.now) from to rows.old offsets.old
        rows.new offsets.new }
{
    let valid = bits::packed(n);
    let values = &part[valid..];
    for r in from..to {
        let at = offsets[r + 1] as usize;
        let bit = has_value(full, part, r);
        offsets[r + 1] = put_slot(
            bit,
            values,
            r,
            width,
            coding,
            fold,
            column.options,
            rows,
            at,
        ) as u64;
    }
}
