// The number whose value bytes stand at a place of a row, as its bytes in the sheet. The parts of an interval are such.
#![tactic(auto)]

ghost use Rattle.std.specs.Prelude.{◌≡◌, true, ◌+◌, ◌*◌, ◌<◌, ◌≤◌, length, take, drop};
ghost use Rattle.std.proofs.lemmas.List.Edits.{sets};
ghost use Rattle.format.specs.Lists.{low_bytes};
ghost use Rattle.format.specs.Field.{directed};
ghost use Rattle.format.specs.Kinds.{float};
ghost use Rattle.format.specs.Fold.{is_folded};
ghost use Rattle.format.specs.Key.{signed_unkey, float_unkey};
ghost use Rattle.number.specs.Codings.{coding_unkey};

use number::{Coding, Float, Word, decode, directed, folded};

// The number.
// A word at a place, here and above: it is about a slice and a place, which no type says in plainer words.
pub fn number_at<W: Word>(row: &[u8], from: usize, coding: Coding, descending: bool) -> W
    requires { from + W.SIZE ≤ length row.now }
    ensures { low_bytes W.SIZE (W.value result) ≡ coding_unkey coding (directed descending (take W.SIZE (drop from row.now))) }
{
    decode(coding, directed(descending, W::low(row, from)))
}

// Its bytes, stored from a place of out on.
pub fn take_number<W: Word>(
    out: &mut [u8],
    at: usize,
    row: &[u8],
    from: usize,
    coding: Coding,
    descending: bool,
)
    requires from_in_bounds { from + W.SIZE ≤ length row.now }
    requires at_in_bounds { at + W.SIZE ≤ length out.old }
    ensures { out.new ≡ sets out.old at (coding_unkey coding (directed descending (take W.SIZE (drop from row.now)))) }
{
    let number: W = number_at(row, from, coding, descending);
    number.put(out, at);
}

// A signed number of so many words of 64 bits: from the lowest word, which stands last, up to the top one, which has the sign.
pub fn take_words(
    out: &mut [u8],
    at: usize,
    row: &[u8],
    from: usize,
    words: usize,
    descending: bool,
)
    requires words_nonzero { 0 < words }
    requires words_in_bounds { from + 8 * words ≤ length row.now }
    requires words_in_bounds_2 { at + 8 * words ≤ length out.old }
    ensures { out.new ≡ sets out.old at (signed_unkey (directed descending (take (8 * words) (drop from row.now)))) }
{
    let mut place = at;
    for left in (1..words).rev() {
        let lower = from + 8 * left;
        take_number::<u64>(out, place, row, lower, Coding::Unsigned, descending);
        place += 8;
    }
    take_number::<u64>(out, place, row, from, Coding::Signed, descending);
}

// Whether the float whose value bytes stand at a place of a row is folded: folding it changes nothing.
pub fn is_folded<F: Float>(row: &[u8], from: usize, descending: bool) -> bool
    requires { from + F.SIZE ≤ length row.now }
    ensures { result ≡ is_folded (float F.SIZE) true (float_unkey (directed descending (take F.SIZE (drop from row.now)))) }
{
    let value: F = number_at(row, from, Coding::Float, descending);
    folded(true, value).number() == value.number()
}
