// The value bytes of numbers of several parts, written: intervals, and decimals word by word.
#![tactic(auto)]

ghost use Rattle.std.specs.Prelude.{[], ◌∷◌, ◌+◌, ◌*◌, ◌<◌, ◌≤◌, length, take, drop};
ghost use Rattle.format.specs.Field.{directed};
ghost use Rattle.format.specs.Key.{parts_key, signed_key};
ghost use Rattle.basics.specs.Wrote.{Wrote};

use number::Coding;
use number_writer::put_number;

// Days and milliseconds, each as a signed number.
pub fn encode_day_time(
    out: &mut [u8],
    at: usize,
    values: &[u8],
    from: usize,
    descending: bool,
) -> usize
    requires from_in_bounds { from + 8 ≤ length values.now }
    requires at_in_bounds { at + 8 ≤ length out.old }
    ensures { Wrote (directed descending (parts_key (4 ∷ 4 ∷ []) (take 8 (drop from values.now)))) at
        out.old out.new result }
{
    put_number::<u32>(out, at, values, from, Coding::Signed, descending);
    put_number::<u32>(out, at + 4, values, from + 4, Coding::Signed, descending)
}

// Months, days and nanoseconds, each as a signed number.
pub fn encode_month_day_nano(
    out: &mut [u8],
    at: usize,
    values: &[u8],
    from: usize,
    descending: bool,
) -> usize
    requires from_in_bounds { from + 16 ≤ length values.now }
    requires at_in_bounds { at + 16 ≤ length out.old }
    ensures { Wrote (directed descending (parts_key (4 ∷ 4 ∷ 8 ∷ []) (take 16 (drop from values.now)))) at
        out.old out.new result }
{
    put_number::<u32>(out, at, values, from, Coding::Signed, descending);
    put_number::<u32>(out, at + 4, values, from + 4, Coding::Signed, descending);
    put_number::<u64>(out, at + 8, values, from + 8, Coding::Signed, descending)
}

// A signed number of so many words of 64 bits: the top word, which has the sign, and then the others, from the highest down.
// Always inlined: a call with a count that is known takes no loop.
#[inline(always)]
pub fn put_words(
    out: &mut [u8],
    at: usize,
    values: &[u8],
    from: usize,
    words: usize,
    descending: bool,
) -> usize
    requires words_nonzero { 0 < words }
    requires words_in_bounds { from + 8 * words ≤ length values.now }
    requires words_in_bounds_2 { at + 8 * words ≤ length out.old }
    ensures { Wrote (directed descending (signed_key (take (8 * words) (drop from values.now)))) at
        out.old out.new result }
{
    let top = words - 1;
    let mut next = put_number::<u64>(out, at, values, from + 8 * top, Coding::Signed, descending);
    for left in (0..top).rev() {
        next = put_number::<u64>(
            out,
            next,
            values,
            from + 8 * left,
            Coding::Unsigned,
            descending,
        );
    }
    next
}
