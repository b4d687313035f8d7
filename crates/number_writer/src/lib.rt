// The value bytes of a number, from the place where it stands in the sheet to a place of the row buffer: as it is coded, and of a float
// folded where its column folds. The parts of an interval are such numbers.
#![tactic(auto)]

ghost use Rattle.std.specs.Prelude.{◌+◌, ◌≤◌, length, take, drop};
ghost use Rattle.format.specs.Kinds.{float};
ghost use Rattle.format.specs.Fold.{folded_value};
ghost use Rattle.format.specs.Field.{directed};
ghost use Rattle.format.specs.Key.{float_key};
ghost use Rattle.basics.specs.Wrote.{Wrote};
ghost use Rattle.number.specs.Codings.{coding_key};

use number::{Coding, Float, Word, directed, encode, folded};

// A word's room at a place, here and above: it is about a slice and a place, which no type says in plainer words.
pub fn put_number<W: Word>(
    out: &mut [u8],
    at: usize,
    values: &[u8],
    from: usize,
    coding: Coding,
    descending: bool,
) -> usize
    requires from_in_bounds { from + W.SIZE ≤ length values.now }
    requires at_in_bounds { at + W.SIZE ≤ length out.old }
    ensures { Wrote (directed descending (coding_key coding (take W.SIZE (drop from values.now)))) at
        out.old out.new result }
{
    let word = encode(coding, W::low(values, from));
    directed(descending, word).put(out, at);
    at + W::SIZE
}

pub fn put_float<F: Float>(
    out: &mut [u8],
    at: usize,
    values: &[u8],
    from: usize,
    fold: bool,
    descending: bool,
) -> usize
    requires from_in_bounds { from + F.SIZE ≤ length values.now }
    requires at_in_bounds { at + F.SIZE ≤ length out.old }
    ensures { Wrote (directed descending (float_key (folded_value (float F.SIZE) fold (take F.SIZE (drop from values.now))))) at
        out.old out.new result }
{
    let value = folded(fold, F::low(values, from));
    let word = encode(Coding::Float, value);
    directed(descending, word).put(out, at);
    at + F::SIZE
}
