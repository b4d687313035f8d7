// The three numbers of a description, kind, options and width: what is wrong with them, the kind that two of them say, and the width of a
// kind. The kind byte and the options byte are conversions of crate `format`.
#![tactic(auto)]

ghost use Rattle.std.specs.Prelude.{◌≡◌};
ghost use Rattle.format.specs.Columns.{kind_of, most_options, most_width, numbers_fault};
ghost use Rattle.format.specs.Described.{held_width};

use format::{Kind, Refusal};

// The kind that a kind byte from 1 to 18 says; fixed binary takes its width along. No `From`: it takes two numbers, and past 18 it means
// nothing.
pub fn kind_of(b: u8, width: u16) -> Kind
    ensures { result ≡ kind_of b width }
{
    match b {
        1 => Kind::Bool,
        2 => Kind::I8,
        3 => Kind::I16,
        4 => Kind::I32,
        5 => Kind::I64,
        6 => Kind::U8,
        7 => Kind::U16,
        8 => Kind::U32,
        9 => Kind::U64,
        10 => Kind::F16,
        11 => Kind::F32,
        12 => Kind::F64,
        13 => Kind::DayTime,
        14 => Kind::MonthDayNano,
        15 => Kind::FixedBinary(width),
        16 => Kind::Variable,
        17 => Kind::I128,
        _ => Kind::I256,
    }
}

// The highest options byte of a kind: only the floats, kinds 10 to 12, have bit 3.
pub fn most_options(kind: u8) -> u8
    ensures { result ≡ most_options kind }
{
    if kind < 10 {
        return 7;
    }
    if kind < 13 {
        return 15;
    }
    7
}

// The widest of a kind: only fixed binary, kind 15, has a width.
fn most_width(kind: u8) -> usize
    ensures { result ≡ most_width kind }
{
    if kind == 15 {
        return format::MAX_WIDTH;
    }
    0
}

// The first fault of a description at a place, whose body is cut or not: 2, 1, 3, 4 in this order. Lists, codes and columns are all
// judged here.
pub fn check_numbers(
    place: usize,
    kind: u8,
    cut: bool,
    options: u8,
    width: usize,
) -> Result<(), Refusal>
    ensures { result ≡ numbers_fault place kind cut options width }
{
    if kind < 1 {
        return Err(Refusal::UnknownKind(place));
    }
    if format::LAST_KIND < kind {
        return Err(Refusal::UnknownKind(place));
    }
    if cut {
        return Err(Refusal::ListCut(place));
    }
    if most_options(kind) < options {
        return Err(Refusal::OptionBits(place));
    }
    if most_width(kind) < width {
        return Err(Refusal::Width(place));
    }
    Ok(())
}

// The width: fixed binary alone has one.
pub fn held_width(kind: Kind) -> usize
    ensures { result ≡ held_width kind }
{
    if u8::from(kind) == 15 {
        return column_facts::width(kind);
    }
    0
}
