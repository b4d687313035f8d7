// The columns of a list written in codes, four bytes a description: kind, options, width low byte first.
#![tactic(auto)]

ghost use Rattle.std.specs.Prelude.{◌≡◌, ◌+◌, ◌*◌, ◌≤◌, length};
ghost use Rattle.std.proofs.lemmas.List.Edits.{sets};
ghost use Rattle.format.specs.Lists.{over};
ghost use Rattle.format.specs.Schemas.{cols_of};
ghost use Rattle.format.specs.Limits.{max_columns};
ghost use Rattle.format.specs.Described.{code, codes};

use descriptions::held_width;
use format::{Column, Schema};

// The code of a column, written at a place.
fn put_code(out: &mut [u8], at: usize, column: Column)
    requires { at + 4 ≤ length out.old }
    ensures { out.new ≡ sets out.old at (code column) }
{
    let kind = column.kind;
    let options = column.options;
    let width = held_width(kind);
    out[at] = u8::from(kind);
    out[at + 1] = u8::from(options);
    out[at + 2] = (width % 256) as u8;
    out[at + 3] = (width / 256 % 256) as u8;
}

// The columns of a list in codes, in front of the lent bytes; what is past them stays.
// `schema.count ≤ max_columns`, here and above: `Schema` is a public field of the public `Cutter`, and so has no invariant.
pub fn put_codes(schema: Schema, out: &mut [u8])
    requires count_le_max_columns { schema.count ≤ max_columns }
    requires count_in_bounds { 4 * schema.count ≤ length out.old }
    ensures { out.new ≡ over (codes (cols_of schema)) out.old }
{
    let used = schema.in_use();
    for (i, column) in used.iter().enumerate() {
        put_code(out, 4 * i, *column);
    }
}
