// Sheets from slices: what is before a first end means nothing to encode.
ghost use Rattle.format.specs.Described.{spelled};
ghost use Rattle.demands.specs.Slices.{EncodedAlike};

use demands::slices::Both;
use station::encode::encode;

// Encodes two sheets under one list: those that differ only in bytes before a first end give equal answers, rows and offsets.
pub fn encode_both(
    list: &[u8],
    n: u64,
    sheet: &[u8],
    rows: &mut [u8],
    offsets: &mut [u64],
    other: &[u8],
    others: &mut [u8],
    ends: &mut [u64],
) -> Both
    ensures { EncodedAlike (spelled list.now) n sheet.now rows.old offsets.old
        other.now others.old ends.old
        result rows.new offsets.new others.new ends.new }
{
    let first = encode(list, n, sheet, rows, offsets);
    let second = encode(list, n, other, others, ends);
    Both { first, second }
}
