// The fields of nulls of the fixed kinds and of bools, written from a place of the row buffer on. Each returns the place after the field.
//
//     i16 null, first                  row 00 00 00    descending 00 00 00
#![tactic(auto)]

ghost use Rattle.std.specs.Prelude.{◌∷◌, ◌+◌, ◌≤◌, length, replicate};
ghost use Rattle.std.proofs.Math.Option.{some};
ghost use Rattle.format.specs.Kinds.{bool};
ghost use Rattle.format.specs.Sheet.{bool_byte};
ghost use Rattle.format.specs.Field.{fixed_field, null_byte};
ghost use Rattle.basics.specs.Wrote.{Wrote};

use column_facts::null_sentinel;
use format::SortOptions;
use number::directed;
use runs::put_byte;

// Null: the null byte, which descending does not invert, then zeros to the length of a value.
pub fn encode_null(out: &mut [u8], at: usize, width: usize, options: SortOptions) -> usize
    requires { at + 1 + width ≤ length out.old }
    ensures { Wrote (null_byte options ∷ replicate width 0) at out.old out.new result }
{
    put_byte(out, at, null_sentinel(options), false);
    out[at + 1..at + 1 + width].fill(0);
    at + 1 + width
}

// A bool: 00 or 01.
pub fn encode_boolean(out: &mut [u8], at: usize, val: bool, options: SortOptions) -> usize
    requires { at + 2 ≤ length out.old }
    ensures { Wrote (fixed_field bool options (some (bool_byte val))) at out.old out.new result }
{
    out[at] = 1;
    out[at + 1] = directed(options.descending, val as u8);
    at + 2
}
