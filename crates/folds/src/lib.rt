// Folding, option bit 3: every NaN becomes one, and -0 becomes +0. A comparison is a number, 0 or 1, so that no step branches.
//
//     f16    FC01 a NaN    7E00    the one NaN
//            8000 -0       0000    +0
//            FC00 -inf     FC00
#![tactic(auto)]

ghost use Rattle.std.specs.Prelude.{◌≡◌, ℕ, cond, refl};
ghost use Rattle.format.specs.Fold.{infinity, one_na_n, folded_bits};
ghost use Rattle.format.specs.declared.Kind.TheVariants.{F16, F32, F64};
ghost use Rattle.basics.proofs.Sorts.{Foldable, foldable};

use words::Word;

// The words that are the bits of a float.
pub trait Float: Word {
    // Infinity: the NaNs are above it.
    ghost INFINITY: { ℕ };

    // The one NaN.
    ghost NAN: { ℕ };

    const INFINITY: u64;

    const NAN: u64;

    ghost infinite: { INFINITY ≡ infinity Self.SIZE };

    ghost one: { NAN ≡ one_na_n Self.SIZE };

    ghost folds: { Foldable Self.SIZE };
}

impl Float for u16 {
    ghost INFINITY = { 0x7c00 };

    ghost NAN = { 0x7e00 };

    ghost infinite = { refl };

    ghost one = { refl };

    ghost folds = { foldable F16 };

    const INFINITY: u64 = 0x7c00;

    const NAN: u64 = 0x7e00;
}

impl Float for u32 {
    ghost INFINITY = { 0x7f80_0000 };

    ghost NAN = { 0x7fc0_0000 };

    ghost infinite = { refl };

    ghost one = { refl };

    ghost folds = { foldable F32 };

    const INFINITY: u64 = 0x7f80_0000;

    const NAN: u64 = 0x7fc0_0000;
}

impl Float for u64 {
    ghost INFINITY = { 0x7ff0_0000_0000_0000 };

    ghost NAN = { 0x7ff8_0000_0000_0000 };

    ghost infinite = { refl };

    ghost one = { refl };

    ghost folds = { foldable F64 };

    const INFINITY: u64 = 0x7ff0_0000_0000_0000;

    const NAN: u64 = 0x7ff8_0000_0000_0000;
}

// The bits of a float, folded where `fold` says so: the NaNs are above infinity without the sign, and -0 is the sign alone.
pub fn folded<F: Float>(fold: bool, x: F) -> F
    ensures { F.value result ≡ cond fold (folded_bits F.SIZE (F.value x)) (F.value x) }
{
    let bits = x.number();
    let nan = (fold & (F::INFINITY < bits % F::TOP)) as u64;
    let zero = (fold & (bits == F::TOP)) as u64;
    F::of(bits - (nan + zero) * bits + nan * F::NAN)
}
