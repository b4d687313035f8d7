// The lead byte.
ghost use Rattle.std.specs.Prelude.{◌≡◌};
ghost use Rattle.format.specs.Kinds.{shape, variable};
ghost use Rattle.format.specs.Cutter.{turn, lead_move};
ghost use Rattle.moves.specs.Moves.{as_move, fixed_lead};

use crate::Moved;
use column_facts::{null_lead, width};
use format::{Kind, RowFault, SortOptions, Spot};

// Under descending a byte is read inverted back.
pub fn turned(options: SortOptions, byte: u8) -> u8
    ensures { result ≡ turn options byte }
{
    if options.descending {
        return 255 - byte;
    }
    byte
}

// Of a fixed field, which is whole with it where it has no value bytes.
fn lead_fixed(width: usize, options: SortOptions, at: u64, byte: u8) -> Moved
    ensures { as_move result ≡ fixed_lead width options at byte }
{
    if null_lead(byte, options) {
        if width == 0 {
            return Moved::Whole;
        }
        return Moved::On(Spot::Nulls(0, 0));
    }
    if byte == 1 {
        if width == 0 {
            return Moved::Whole;
        }
        return Moved::On(Spot::Value(0, 0));
    }
    Moved::Bad(RowFault::Lead, at)
}

// Of variable bytes: null and empty are whole with it.
fn lead_variable(options: SortOptions, at: u64, byte: u8) -> Moved
    ensures { as_move result ≡ lead_move variable options at byte }
{
    if null_lead(byte, options) {
        return Moved::Whole;
    }
    let lead = turned(options, byte);
    if lead == 1 {
        return Moved::Whole;
    }
    if lead == 2 {
        return Moved::On(Spot::Block(0, 0, 0));
    }
    Moved::Bad(RowFault::Lead, at)
}

// 17 shows at it.
pub fn lead(kind: Kind, options: SortOptions, at: u64, byte: u8) -> Moved
    ensures { as_move result ≡ lead_move (shape kind) options at byte }
{
    match kind {
        Kind::Variable => lead_variable(options, at, byte),
        _ => lead_fixed(width(kind), options, at, byte),
    }
}
