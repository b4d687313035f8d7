// The field of a slot that is written word by word: numbers of 8, 16, 32 and 64 bits, and months, days and nanoseconds. Which byte leads it,
// and whether its value or zeros follow, is no branch, since a row's nulls cannot be foretold.
#![tactic(auto)]

ghost use Rattle.std.specs.Prelude.{◌≡◌, false, cond, [], ◌∷◌, ◌+◌, ◌*◌, ◌^◌, ◌<◌, ◌≤◌, length, take, drop, replicate};
ghost use Rattle.std.proofs.lemmas.List.Edits.{sets};
ghost use Rattle.format.specs.Lists.{low_bytes};
ghost use Rattle.format.specs.Key.{parts_key};
ghost use Rattle.format.specs.Fold.{folds};
ghost use Rattle.format.specs.Field.{directed, null_byte};
ghost use Rattle.basics.specs.Wrote.{Wrote};
ghost use Rattle.number_reader.specs.Words.{WordWidth};
ghost use Rattle.fixed_decoder.specs.Worded.{worded};
ghost use Rattle.word_writer.specs.Words.{Slotted, key_bytes, word_field};

use column_facts::null_sentinel;
use format::SortOptions;
use number::{Coding, Float, Word, directed, encode, folded, or_zero};

// 01, or the null byte.
fn lead(valid: bool, options: SortOptions) -> u8
    ensures { result ≡ cond valid 1 (null_byte options) }
{
    let null = null_sentinel(options);
    if valid { 1 } else { null }
}

// The value bytes of the number that stands at a place of the values, or zeros. Folding is a branch, since a column folds all or none.
fn put_number<F: Float>(
    rows: &mut [u8],
    at: usize,
    values: &[u8],
    from: usize,
    coding: Coding,
    fold: bool,
    descending: bool,
    valid: bool,
)
    requires from_in_bounds { from + F.SIZE ≤ length values.now }
    requires at_in_bounds { at + F.SIZE ≤ length rows.old }
    ensures { rows.new ≡ sets rows.old at
        (cond valid (key_bytes coding F.SIZE fold descending (take F.SIZE (drop from values.now))) (replicate F.SIZE 0)) }
{
    let x = F::low(values, from);
    let value = if fold { folded(true, x) } else { x };
    let word = directed(descending, encode(coding, value));
    or_zero(valid, word).put(rows, at);
}

// The same of so many bytes. A width and no type, here and in `put_slot`: the 16 bytes of an interval are no word.
fn put_word(
    rows: &mut [u8],
    at: usize,
    values: &[u8],
    from: usize,
    width: usize,
    coding: Coding,
    fold: bool,
    descending: bool,
    valid: bool,
)
    requires word_width { WordWidth width }
    requires width_in_bounds { from + width ≤ length values.now }
    requires width_in_bounds_2 { at + width ≤ length rows.old }
    ensures { rows.new ≡ sets rows.old at
        (cond valid (key_bytes coding width fold descending (take width (drop from values.now))) (replicate width 0)) }
{
    match width {
        2 => put_number::<u16>(rows, at, values, from, coding, fold, descending, valid),
        4 => put_number::<u32>(rows, at, values, from, coding, fold, descending, valid),
        _ => put_number::<u64>(rows, at, values, from, coding, fold, descending, valid),
    }
}

// The value byte of a number of 8 bits, or 0.
fn put_byte(
    rows: &mut [u8],
    at: usize,
    values: &[u8],
    from: usize,
    coding: Coding,
    descending: bool,
    valid: bool,
)
    requires from_in_bounds { from + 1 ≤ length values.now }
    requires at_in_bounds { at + 1 ≤ length rows.old }
    ensures { rows.new ≡ sets rows.old at
        (cond valid (key_bytes coding 1 false descending (take 1 (drop from values.now))) (replicate 1 0)) }
{
    let byte = directed(descending, encode(coding, u8::low(values, from)));
    or_zero(valid, byte).put(rows, at);
}

// Those of months, days and nanoseconds, or zeros.
fn put_interval(
    rows: &mut [u8],
    at: usize,
    values: &[u8],
    from: usize,
    descending: bool,
    valid: bool,
)
    requires from_in_bounds { from + 16 ≤ length values.now }
    requires at_in_bounds { at + 16 ≤ length rows.old }
    ensures { rows.new ≡ sets rows.old at
        (cond valid (directed descending (parts_key (4 ∷ 4 ∷ 8 ∷ []) (take 16 (drop from values.now)))) (replicate 16 0)) }
{
    let signed = Coding::Signed;
    put_number::<u32>(rows, at, values, from, signed, false, descending, valid);
    let days = from + 4;
    put_number::<u32>(rows, at + 4, values, days, signed, false, descending, valid);
    let nanos = from + 8;
    put_number::<u64>(
        rows,
        at + 8,
        values,
        nanos,
        signed,
        false,
        descending,
        valid,
    );
}

// The field of slot r, of so many value bytes.
pub fn put_slot(
    valid: bool,
    values: &[u8],
    r: usize,
    width: usize,
    coding: Coding,
    fold: bool,
    options: SortOptions,
    rows: &mut [u8],
    at: usize,
) -> usize
    requires slotted { Slotted coding width }
    requires width_in_bounds { r * width + width ≤ length values.now }
    requires width_in_bounds_2 { at + (1 + width) ≤ length rows.old }
    requires fold_value { fold ≡ folds (worded coding width) options.fold }
    ensures { Wrote (word_field (worded coding width) options valid (take width (drop (r * width) values.now))) at
        rows.old rows.new result }
{
    let descending = options.descending;
    let from = r * width;
    rows[at] = lead(valid, options);
    if width == 16 {
        put_interval(rows, at + 1, values, from, descending, valid);
        return at + 17;
    }
    if width == 1 {
        put_byte(rows, at + 1, values, from, coding, descending, valid);
        return at + 2;
    }
    put_word(
        rows,
        at + 1,
        values,
        from,
        width,
        coding,
        fold,
        descending,
        valid,
    );
    at + 1 + width
}
