// The field of a number, or of months, days and nanoseconds, in front of a row back into its slot of the sheet, once a reader has found
// no fault in it: its words, or 0 for a null. Which of them is stored is no branch, since a row's nulls cannot be foretold.
ghost use Rattle.std.specs.Prelude.{◌≡◌, cond, [], ◌∷◌, ◌+◌, ◌≤◌, length, take, drop, replicate};
ghost use Rattle.std.proofs.lemmas.List.Edits.{sets};
ghost use Rattle.format.specs.Key.{parts_unkey};
ghost use Rattle.format.specs.Field.{directed};
ghost use Rattle.format.specs.Cleared.{fixed_slot};
ghost use Rattle.format.specs.Read.{Good, read_fixed, slot_read};
ghost use Rattle.number.specs.Codings.{coding_unkey};
ghost use Rattle.number_reader.specs.Words.{WordWidth};
ghost use Rattle.fixed_decoder.specs.Worded.{Worded, worded};

use format::SortOptions;
use number::{Coding, Word, or_zero};
use number_reader::number_at;

// A number at a place of the row, or 0.
fn put_number<W: Word>(
    out: &mut [u8],
    at: usize,
    row: &[u8],
    from: usize,
    coding: Coding,
    descending: bool,
    null: bool,
)
    requires from_in_bounds { from + W.SIZE ≤ length row.now }
    requires at_in_bounds { at + W.SIZE ≤ length out.old }
    ensures { out.new ≡ sets out.old at
        (cond null (replicate W.SIZE 0) (coding_unkey coding (directed descending (take W.SIZE (drop from row.now))))) }
{
    let value: W = number_at(row, from, coding, descending);
    or_zero(!null, value).put(out, at);
}

// The same of so many bytes. A width and no type, here and in `slot`: the 16 bytes of an interval are no word.
fn put_word(
    out: &mut [u8],
    at: usize,
    row: &[u8],
    from: usize,
    width: usize,
    coding: Coding,
    descending: bool,
    null: bool,
)
    requires word_width { WordWidth width }
    requires width_in_bounds { from + width ≤ length row.now }
    requires width_in_bounds_2 { at + width ≤ length out.old }
    ensures { out.new ≡ sets out.old at
        (cond null (replicate width 0) (coding_unkey coding (directed descending (take width (drop from row.now))))) }
{
    match width {
        2 => put_number::<u16>(out, at, row, from, coding, descending, null),
        4 => put_number::<u32>(out, at, row, from, coding, descending, null),
        _ => put_number::<u64>(out, at, row, from, coding, descending, null),
    }
}

// Months, days and nanoseconds, or zeros.
fn put_interval(out: &mut [u8], at: usize, row: &[u8], descending: bool, null: bool)
    requires in_bounds { 17 ≤ length row.now }
    requires at_in_bounds { at + 16 ≤ length out.old }
    ensures { out.new ≡ sets out.old at
        (cond null (replicate 16 0) (parts_unkey (4 ∷ 4 ∷ 8 ∷ []) (directed descending (take 16 (drop 1 row.now))))) }
{
    put_number::<u32>(out, at, row, 1, Coding::Signed, descending, null);
    put_number::<u32>(out, at + 4, row, 5, Coding::Signed, descending, null);
    put_number::<u64>(out, at + 8, row, 9, Coding::Signed, descending, null);
}

// The field in front of the row, of so many value bytes.
pub fn slot(
    row: &[u8],
    width: usize,
    coding: Coding,
    options: SortOptions,
    out: &mut [u8],
    at: usize,
)
    requires worded { Worded width }
    requires good { Good (read_fixed (worded coding width) options row.now) }
    requires width_in_bounds { at + width ≤ length out.old }
    ensures { out.new ≡ sets out.old at
        (fixed_slot width (slot_read (read_fixed (worded coding width) options row.now))) }
{
    let descending = options.descending;
    let null = row[0] != 1;
    if width == 16 {
        put_interval(out, at, row, descending, null);
        return;
    }
    put_word(out, at, row, 1, width, coding, descending, null);
}
