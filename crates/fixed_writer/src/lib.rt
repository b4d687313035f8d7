// The fields of the fixed kinds, written (fixed.rs of the Rust): 01 and the value bytes, from a place of the row buffer on. Each writer
// returns the place after what it wrote. Nulls and bools are `null_writer`'s.
//
//     i16 -1            sheet FF FF    row 01 7F FF    descending 01 80 00
#![tactic(auto)]

ghost use Rattle.std.proofs.Math.Option.{some};
ghost use Rattle.std.specs.Prelude.{◌+◌, ◌*◌, ◌≤◌, length, take, drop};
ghost use Rattle.format.specs.Kinds.{shape, value_bytes};
ghost use Rattle.format.specs.Fold.{folded_slot};
ghost use Rattle.format.specs.Field.{directed, field};
ghost use Rattle.basics.specs.Wide.{WideKind};
ghost use Rattle.basics.specs.Wrote.{Wrote};

use format::{Kind, SortOptions};
use number::Coding;
use number_writer::{put_float, put_number};
use part_writer::{encode_day_time, encode_month_day_nano, put_words};
use runs::copy_bytes;

// Fixed binary, as it stands.
// A value's room at a place, here and above: it is about a slice, a place and a width, which no type says in plainer words.
fn encode_fixed_size_binary(
    out: &mut [u8],
    at: usize,
    values: &[u8],
    from: usize,
    width: usize,
    descending: bool,
) -> usize
    requires width_in_bounds { from + width ≤ length values.now }
    requires width_in_bounds_2 { at + width ≤ length out.old }
    ensures { Wrote (directed descending (take width (drop from values.now))) at out.old out.new result }
{
    copy_bytes(
        &mut out[at..at + width],
        &values[from..from + width],
        descending,
    );
    at + width
}

// Every fixed kind but bool: value r of a column's values, read where it stands, and folded where the column folds. One match, so that
// a field costs one jump.
pub fn encode(
    out: &mut [u8],
    at: usize,
    kind: Kind,
    values: &[u8],
    r: usize,
    options: SortOptions,
) -> usize
    requires wide_kind { WideKind kind }
    requires kind_in_bounds { r * value_bytes kind + value_bytes kind ≤ length values.now }
    requires kind_in_bounds_2 { at + 1 + value_bytes kind ≤ length out.old }
    ensures { Wrote (field (shape kind) options (folded_slot (shape kind) options
        (some (take (value_bytes kind) (drop (r * value_bytes kind) values.now))))) at out.old out.new result }
{
    let descending = options.descending;
    let fold = options.fold;
    let place = at + 1;
    out[at] = 1;
    match kind {
        Kind::I8 => put_number::<u8>(out, place, values, r, Coding::Signed, descending),
        Kind::I16 => put_number::<u16>(out, place, values, r * 2, Coding::Signed, descending),
        Kind::I32 => put_number::<u32>(out, place, values, r * 4, Coding::Signed, descending),
        Kind::I64 => put_number::<u64>(out, place, values, r * 8, Coding::Signed, descending),
        Kind::U8 => put_number::<u8>(out, place, values, r, Coding::Unsigned, descending),
        Kind::U16 => put_number::<u16>(out, place, values, r * 2, Coding::Unsigned, descending),
        Kind::U32 => put_number::<u32>(out, place, values, r * 4, Coding::Unsigned, descending),
        Kind::U64 => put_number::<u64>(out, place, values, r * 8, Coding::Unsigned, descending),
        Kind::F16 => put_float::<u16>(out, place, values, r * 2, fold, descending),
        Kind::F32 => put_float::<u32>(out, place, values, r * 4, fold, descending),
        Kind::F64 => put_float::<u64>(out, place, values, r * 8, fold, descending),
        Kind::DayTime => encode_day_time(out, place, values, r * 8, descending),
        Kind::MonthDayNano => encode_month_day_nano(out, place, values, r * 16, descending),
        Kind::FixedBinary(w) => encode_fixed_size_binary(
            out,
            place,
            values,
            r * (w as usize),
            w as usize,
            descending,
        ),
        Kind::I128 => put_words(out, place, values, r * 16, 2, descending),
        Kind::I256 => put_words(out, place, values, r * 32, 4, descending),
        // Not handed.
        Kind::Bool => place,
        Kind::Variable => place,
    }
}
