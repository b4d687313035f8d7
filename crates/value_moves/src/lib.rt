// The value bytes of a fixed field.
#![tactic(auto)]

ghost use Rattle.std.specs.Prelude.{◌≡◌, true, ◌⊎◌, reverse, ℕ, ◌^◌, ◌<◌, ◌≤◌};
ghost use Rattle.format.specs.Lists.{low_bytes};
ghost use Rattle.format.specs.declared.Spot.TheVariants.{Value};
ghost use Rattle.format.specs.Kinds.{Fixed, bool, float, shape};
ghost use Rattle.format.specs.Key.{float_unkey};
ghost use Rattle.format.specs.Fold.{is_folded};
ghost use Rattle.format.specs.CutterRule.{spelt_kept, spot_kept};
ghost use Rattle.format.specs.Cutter.{value_move, move as move_of};
ghost use Rattle.moves.specs.Moves.{as_move};
ghost use Rattle.value_moves.specs.Values.{AnyBytes, folding_move};

use column_facts::width;
use format::{Kind, RowFault, SortOptions, Spot};
use moves::Moved;
use moves::lead::turned;
use number::{Coding, Float, Word, decode, folded};

// A bool's only one: 19.
fn boolean_byte(options: SortOptions, seen: usize, at: u64, byte: u8) -> Moved
    ensures { (spelt : ℕ) → as_move result ≡ value_move bool options seen spelt at byte }
{
    if turned(options, byte) < 2 {
        return Moved::Whole;
    }
    Moved::Bad(RowFault::BoolByte, at)
}

// A byte of a value that may be any bytes.
fn plain_byte(width: usize, seen: usize, options: SortOptions, at: u64, byte: u8) -> Moved
    requires { seen < width }
    ensures { (k : Fixed) (spelt : ℕ) → AnyBytes width options.fold k → as_move result ≡ value_move k options seen spelt at byte }
{
    if seen + 1 < width {
        return Moved::On(Spot::Value(seen + 1, 0));
    }
    Moved::Whole
}

// Whether a float whose bytes spell this number, high byte first, is folded.
fn stands_folded<F: Float>(spelt: F) -> bool
    ensures { result ≡ is_folded (float F.SIZE) true (float_unkey (reverse (low_bytes F.SIZE (F.value spelt)))) }
{
    let value = decode(Coding::Float, decode(Coding::Unsigned, spelt));
    folded(true, value).number() == value.number()
}

// Whether it may stand in a column that folds. A width and no type, here and below: a kind hands its width, and here it becomes a type.
fn may_stand(width: usize, spelt: u64) -> bool
    requires fact { (width ≡ 2) ⊎ ((width ≡ 4) ⊎ (width ≡ 8)) }
    requires spelt_bound { spelt < 256 ^ width }
    ensures { result ≡ is_folded (float width) true (float_unkey (reverse (low_bytes width spelt))) }
{
    if width == 2 {
        return stands_folded(spelt as u16);
    }
    if width == 4 {
        return stands_folded(spelt as u32);
    }
    stands_folded(spelt)
}

// A byte of a float in a column that folds: 28 shows at the last, for the first.
fn folding_byte(width: usize, seen: usize, spelt: u64, at: u64, byte: u8) -> Moved
    requires fact { (width ≡ 2) ⊎ ((width ≡ 4) ⊎ (width ≡ 8)) }
    requires seen_lt_width { seen < width }
    requires spelt_bound { spelt < 256 ^ seen }
    requires seen_le_at { seen ≤ at }
    ensures { as_move result ≡ folding_move width seen spelt at byte }
{
    let number = 256 * spelt + u64::from(byte);
    if seen + 1 < width {
        return Moved::On(Spot::Value(seen + 1, number));
    }
    if may_stand(width, number) {
        return Moved::Whole;
    }
    Moved::Bad(RowFault::Unfolded, at - seen as u64)
}

// A byte of a float.
fn float_byte(
    width: usize,
    options: SortOptions,
    seen: usize,
    spelt: u64,
    at: u64,
    byte: u8,
) -> Moved
    requires fact { (width ≡ 2) ⊎ ((width ≡ 4) ⊎ (width ≡ 8)) }
    requires seen_lt_width { seen < width }
    requires spelt_value { spelt_kept (float width) options.fold seen spelt ≡ true }
    requires seen_le_at { seen ≤ at }
    ensures { as_move result ≡ value_move (float width) options seen spelt at byte }
{
    if options.fold {
        return folding_byte(width, seen, spelt, at, turned(options, byte));
    }
    plain_byte(width, seen, options, at, byte)
}

// 19 and 28 show at the last of them.
pub fn value_byte(
    kind: Kind,
    options: SortOptions,
    seen: usize,
    spelt: u64,
    at: u64,
    byte: u8,
) -> Moved
    requires spelt_value { spot_kept (shape kind) options.fold at (Value seen spelt) ≡ true }
    requires seen_le_at { seen ≤ at }
    ensures { as_move result ≡ move_of (shape kind) options (Value seen spelt) at byte }
{
    match kind {
        Kind::Bool => boolean_byte(options, seen, at, byte),
        Kind::F16 => float_byte(2, options, seen, spelt, at, byte),
        Kind::F32 => float_byte(4, options, seen, spelt, at, byte),
        Kind::F64 => float_byte(8, options, seen, spelt, at, byte),
        // Not handed.
        Kind::Variable => Moved::Bad(RowFault::Lead, at),
        _ => plain_byte(width(kind), seen, options, at, byte),
    }
}
