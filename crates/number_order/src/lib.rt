// Numbers of sheets, compared as the numbers that their keys spell. A number is named by its index in a column of such numbers: the parts
// of an interval and the words of a decimal are such.
#![tactic(auto)]

ghost use Rattle.std.specs.Prelude.{◌≡◌, [], ◌∷◌, length, take, drop};
ghost use Prim.Native.Nat.{◌+◌, ◌*◌, ◌^◌, ◌<◌, ◌≤◌};
ghost use Rattle.format.specs.Lists.{low_bytes};
ghost use Rattle.format.specs.Kinds.{float};
ghost use Rattle.format.specs.Fold.{folded_value};
ghost use Rattle.format.specs.Key.{parts_key, signed_key};
ghost use Rattle.number.specs.Codings.{coding_key};
ghost use Rattle.number_order.specs.Orders.{Spells, Ordered};

use number::{Coding, Float, Word, encode, folded};
use std::cmp::Ordering;

// The number that the key of a word spells, high byte first.
fn spell<W: Word>(coding: Coding, x: W) -> u64
    ensures spells { Spells W.SIZE (coding_key coding (low_bytes W.SIZE (W.value x))) result }
    ensures fits { result < 256 ^ W.SIZE }
{
    encode(Coding::Unsigned, encode(coding, x)).number()
}

// Number i of a and number j of b, by their keys.
pub fn order_number<W: Word>(coding: Coding, a: &[u8], i: usize, b: &[u8], j: usize) -> Ordering
    requires { (i * W.SIZE + W.SIZE ≤ length a.now) × (j * W.SIZE + W.SIZE ≤ length b.now) }
    ensures { Ordered (coding_key coding (take W.SIZE (drop (i * W.SIZE) a.now)))
        (coding_key coding (take W.SIZE (drop (j * W.SIZE) b.now))) result }
{
    let x = W::low(a, i * W::SIZE);
    let y = W::low(b, j * W::SIZE);
    spell(coding, x).cmp(&spell(coding, y))
}

// The same, folded where `fold` says so.
pub fn order_folded<F: Float>(
    coding: Coding,
    fold: bool,
    a: &[u8],
    i: usize,
    b: &[u8],
    j: usize,
) -> Ordering
    requires { (i * F.SIZE + F.SIZE ≤ length a.now) × (j * F.SIZE + F.SIZE ≤ length b.now) }
    ensures { Ordered (coding_key coding (folded_value (float F.SIZE) fold (take F.SIZE (drop (i * F.SIZE) a.now))))
        (coding_key coding (folded_value (float F.SIZE) fold (take F.SIZE (drop (j * F.SIZE) b.now)))) result }
{
    let x = folded(fold, F::low(a, i * F::SIZE));
    let y = folded(fold, F::low(b, j * F::SIZE));
    spell(coding, x).cmp(&spell(coding, y))
}

// Days and milliseconds, each as a signed number.
pub fn order_day_time(a: &[u8], i: usize, b: &[u8], j: usize) -> Ordering
    requires { (i * 8 + 8 ≤ length a.now) × (j * 8 + 8 ≤ length b.now) }
    ensures { Ordered (parts_key (4 ∷ 4 ∷ []) (take 8 (drop (i * 8) a.now)))
        (parts_key (4 ∷ 4 ∷ []) (take 8 (drop (j * 8) b.now))) result }
{
    order_number::<u32>(Coding::Signed, a, i * 2, b, j * 2).then_with(|| order_number::<u32>(
        Coding::Signed,
        a,
        i * 2 + 1,
        b,
        j * 2 + 1,
    ))
}

// Months, days and nanoseconds, each as a signed number.
pub fn order_month_day_nano(a: &[u8], i: usize, b: &[u8], j: usize) -> Ordering
    requires { (i * 16 + 16 ≤ length a.now) × (j * 16 + 16 ≤ length b.now) }
    ensures { Ordered (parts_key (4 ∷ 4 ∷ 8 ∷ []) (take 16 (drop (i * 16) a.now)))
        (parts_key (4 ∷ 4 ∷ 8 ∷ []) (take 16 (drop (j * 16) b.now))) result }
{
    order_number::<u32>(Coding::Signed, a, i * 4, b, j * 4)
        .then_with(|| order_number::<u32>(Coding::Signed, a, i * 4 + 1, b, j * 4 + 1))
        .then_with(|| order_number::<u64>(Coding::Signed, a, i * 2 + 1, b, j * 2 + 1))
}

// Signed numbers of so many words of 64 bits, which stand from word p of a and word q of b on: the top word, which has the sign, and then
// the others, from the highest down.
pub fn order_words(words: usize, a: &[u8], p: usize, b: &[u8], q: usize) -> Ordering
    requires words_nonzero { 0 < words }
    requires words_in_bounds { (p * 8 + 8 * words ≤ length a.now) × (q * 8 + 8 * words ≤ length b.now) }
    ensures { Ordered (signed_key (take (8 * words) (drop (p * 8) a.now)))
        (signed_key (take (8 * words) (drop (q * 8) b.now))) result }
{
    let left = words - 1;
    let mut found = order_number::<u64>(Coding::Signed, a, p + left, b, q + left);
    for left in (0..left).rev() {
        if found.is_ne() {
            return found;
        }
        found = order_number::<u64>(Coding::Unsigned, a, p + left, b, q + left);
    }
    found
}
