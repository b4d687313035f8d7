// Numbers of 8 to 64 bits, generic over the width: as the value bytes of a row (FixedLengthEncoding of the Rust's fixed.rs). The crates
// beneath are passed on: `words`, numbers in memory low byte first; `codecs`, on `signs`, their keys; `folds`, floats folded.
#![tactic(auto)]

ghost use Rattle.std.specs.Prelude.{◌≡◌};
ghost use Rattle.format.specs.Lists.{low_bytes};
ghost use Rattle.number.specs.Codings.{coding_key, coding_unkey};

pub use codecs::directed;
pub use folds::{Float, folded};
pub use words::{Word, or_zero};

// How a number stands in a row: high byte first; the same with its top bit flipped; or ranked, and then as signed. A coding is a constant
// where it is named, so that the match on it costs nothing there.
#[derive(Clone, Copy)]
pub enum Coding {
    Unsigned,
    Signed,
    Float,
}

// The word whose bytes, stored low byte first, are the value bytes of the row.
pub fn encode<W: Word>(coding: Coding, x: W) -> W
    ensures { low_bytes W.SIZE (W.value result) ≡ coding_key coding (low_bytes W.SIZE (W.value x)) }
{
    match coding {
        Coding::Unsigned => x.swap(),
        Coding::Signed => codecs::encode_signed(x),
        Coding::Float => codecs::encode_float(x),
    }
}

// And back.
pub fn decode<W: Word>(coding: Coding, x: W) -> W
    ensures { low_bytes W.SIZE (W.value result) ≡ coding_unkey coding (low_bytes W.SIZE (W.value x)) }
{
    match coding {
        Coding::Unsigned => x.swap(),
        Coding::Signed => codecs::decode_signed(x),
        Coding::Float => codecs::decode_float(x),
    }
}
