// What the options and the kind of a column say: its width and its null byte.
#![tactic(auto)]

ghost use Rattle.std.specs.Prelude.{◌≡◌};
ghost use Rattle.format.specs.Kinds.{value_bytes};
ghost use Rattle.format.specs.Field.{null_byte};
ghost use Rattle.format.specs.Read.{null_lead};

use format::{Kind, SortOptions};

// The value bytes of a kind; variable bytes have no count of their own.
pub fn width(kind: Kind) -> usize
    ensures { result ≡ value_bytes kind }
{
    match kind {
        Kind::Bool => 1,
        Kind::I8 => 1,
        Kind::I16 => 2,
        Kind::I32 => 4,
        Kind::I64 => 8,
        Kind::U8 => 1,
        Kind::U16 => 2,
        Kind::U32 => 4,
        Kind::U64 => 8,
        Kind::F16 => 2,
        Kind::F32 => 4,
        Kind::F64 => 8,
        Kind::DayTime => 8,
        Kind::MonthDayNano => 16,
        Kind::FixedBinary(w) => w as usize,
        Kind::Variable => 0,
        Kind::I128 => 16,
        Kind::I256 => 32,
    }
}

// The null byte: 00 for nulls first, FF for last.
pub fn null_sentinel(options: SortOptions) -> u8
    ensures { result ≡ null_byte options }
{
    if options.nulls_first {
        return 0;
    }
    255
}

// Whether a field with this lead byte is null, which none is in a required column. Every reader that judges a field asks here.
pub fn null_lead(lead: u8, options: SortOptions) -> bool
    ensures { result ≡ null_lead options lead }
{
    if options.required {
        return false;
    }
    lead == null_sentinel(options)
}
