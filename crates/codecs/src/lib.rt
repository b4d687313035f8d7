// The number codecs, total on every bit pattern. A codec's word is the one whose bytes, stored low byte first, are the
// value bytes of the row. Of an unsigned number that is the number with its bytes turned round.
//
//     sheet    i32 -1    FF FF FF FF    low byte first
//     row                7F FF FF FF    high byte first, top bit flipped
#![tactic(auto)]

ghost use Rattle.std.specs.Prelude.{◌≡◌};
ghost use Rattle.format.specs.Lists.{low_bytes};
ghost use Rattle.format.specs.Key.{signed_key, signed_unkey, float_key, float_unkey};
ghost use Rattle.format.specs.Field.{directed};

use words::Word;

// Signed numbers as their patterns, and back: the same, top bit flipped.
pub fn encode_signed<W: Word>(x: W) -> W
    ensures { low_bytes W.SIZE (W.value result) ≡ signed_key (low_bytes W.SIZE (W.value x)) }
{
    signs::flip(x).swap()
}

pub fn decode_signed<W: Word>(x: W) -> W
    ensures { low_bytes W.SIZE (W.value result) ≡ signed_unkey (low_bytes W.SIZE (W.value x)) }
{
    signs::flip(x.swap())
}

// Floats as their bits, and back: ranked, then as signed.
pub fn encode_float<W: Word>(x: W) -> W
    ensures { low_bytes W.SIZE (W.value result) ≡ float_key (low_bytes W.SIZE (W.value x)) }
{
    encode_signed(signs::rank(x))
}

pub fn decode_float<W: Word>(x: W) -> W
    ensures { low_bytes W.SIZE (W.value result) ≡ float_unkey (low_bytes W.SIZE (W.value x)) }
{
    signs::rank(decode_signed(x))
}

// Descending inverts every byte, of a number's word as of its bytes; a second time undoes it.
pub fn directed<W: Word>(descending: bool, x: W) -> W
    ensures { low_bytes W.SIZE (W.value result) ≡ directed descending (low_bytes W.SIZE (W.value x)) }
{
    if descending {
        W::of(W::ALL - x.number())
    } else {
        x
    }
}
