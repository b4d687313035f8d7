// The kind byte and the options byte of a description, and what stands for no column.
ghost use Rattle.std.specs.Prelude.{◌≡◌};
ghost use Rattle.format.specs.Columns.{options_of};
ghost use Rattle.format.specs.Described.{kind_number, options_number};
ghost use Rattle.format.specs.Schemas.{no_column};

use crate::{Column, Kind, SortOptions};

// The kind byte of a kind.
impl From<Kind> for u8 {
    ghost from_gives = { λ kind b. b ≡ kind_number kind };

    fn from(kind: Kind) -> u8 {
        match kind {
            Kind::Bool => 1,
            Kind::I8 => 2,
            Kind::I16 => 3,
            Kind::I32 => 4,
            Kind::I64 => 5,
            Kind::U8 => 6,
            Kind::U16 => 7,
            Kind::U32 => 8,
            Kind::U64 => 9,
            Kind::F16 => 10,
            Kind::F32 => 11,
            Kind::F64 => 12,
            Kind::DayTime => 13,
            Kind::MonthDayNano => 14,
            Kind::FixedBinary(_) => 15,
            Kind::Variable => 16,
            Kind::I128 => 17,
            Kind::I256 => 18,
        }
    }
}

// Bits 0 to 3 of an options byte.
impl From<u8> for SortOptions {
    ghost from_gives = { λ o options. options ≡ options_of o };

    fn from(o: u8) -> SortOptions {
        SortOptions {
            descending: o % 2 == 1,
            nulls_first: o / 2 % 2 == 1,
            required: o / 4 % 2 == 1,
            fold: o / 8 % 2 == 1,
        }
    }
}

// The options byte.
impl From<SortOptions> for u8 {
    ghost from_gives = { λ options o. o ≡ options_number options };

    fn from(options: SortOptions) -> u8 {
        u8::from(options.descending)
            + 2 * u8::from(options.nulls_first)
            + 4 * u8::from(options.required)
            + 8 * u8::from(options.fold)
    }
}

// What fills an array of columns after those in use.
impl Default for Column {
    ghost is_default = { λ column. column ≡ no_column };

    fn default() -> Column {
        Column {
            kind: Kind::Bool,
            options: SortOptions {
                descending: false,
                nulls_first: false,
                required: false,
                fold: false,
            },
        }
    }
}
