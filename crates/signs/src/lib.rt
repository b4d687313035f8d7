// Signed numbers and floats by their patterns: the top bit, which is the sign, and the bits below it.
#![tactic(auto)]

ghost use Rattle.std.specs.Prelude.{◌≡◌, reverse};
ghost use Rattle.format.specs.Lists.{low_bytes};
ghost use Rattle.format.specs.Key.{flipped_top, rest_inverted};

use words::Word;

// The top bit flipped.
pub fn flip<W: Word>(x: W) -> W
    ensures { reverse (low_bytes W.SIZE (W.value result)) ≡ flipped_top (reverse (low_bytes W.SIZE (W.value x))) }
{
    W::of(x.number() ^ W::TOP)
}

// A float's rank: where the sign is set, all other bits are inverted. The sign gives the mask; a second rank undoes the first.
pub fn rank<W: Word>(x: W) -> W
    ensures { reverse (low_bytes W.SIZE (W.value result)) ≡ rest_inverted (reverse (low_bytes W.SIZE (W.value x))) }
{
    let mask = x.sign().number() & (W::TOP - 1);
    W::of(x.number() ^ mask)
}
