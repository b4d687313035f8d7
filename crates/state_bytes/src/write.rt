// A state, written.
ghost use Rattle.std.specs.Prelude.{◌≡◌, [], ◌+◌, ◌*◌, ◌≤◌, length, replicate};
ghost use Rattle.std.proofs.lemmas.List.Edits.{sets};
ghost use Rattle.format.specs.Limits.{max_columns};
ghost use Rattle.format.specs.Lists.{over};
ghost use Rattle.format.specs.Lent.{eight_bytes, number_bytes};
ghost use Rattle.format.specs.Cutter.{refused};
ghost use Rattle.format.specs.CutterBytes.{spot_numbers, numbers_size, state_bytes, state_size};
ghost use Rattle.state_bytes.specs.Written.{four_numbers, state_with, place_numbers, column_bytes};

use crate::NUMBER_BYTES;
use code_writer::put_codes;
use cutter_step::Place;
use format::{MAX_COLUMNS, Refusal, Returned, Schema, Spot};
use number::Word;

// Numbers 8 to 11: where in its field the cutter stands. No `From`: these are the layout of this crate, which by the orphan rule would then
// stand in crate `format`.
fn spot_numbers(spot: Spot) -> Returned
    ensures { four_numbers result ≡ spot_numbers spot }
{
    match spot {
        Spot::Start => Returned(0, 0, 0, 0),
        Spot::Nulls(seen, known) => Returned(1, seen as u64, known, 0),
        Spot::Value(seen, spelt) => Returned(2, seen as u64, spelt, 0),
        Spot::Block(k, seen, marks) => Returned(3, k as u64, seen as u64, marks),
    }
}

// Four numbers from a place on.
fn put_four(out: &mut [u8], at: usize, numbers: Returned)
    requires { at + 32 ≤ length out.old }
    ensures { out.new ≡ sets out.old at (number_bytes numbers) }
{
    numbers.0.put(out, at);
    numbers.1.put(out, at + 8);
    numbers.2.put(out, at + 16);
    numbers.3.put(out, at + 24);
}

// The thirteen numbers, in front of the lent bytes.
// `count` is a number of the state, written like the others: no columns are here.
pub fn put_numbers(out: &mut [u8], check: Result<(), Refusal>, place: Place, count: usize)
    requires { numbers_size ≤ length out.old }
    ensures { out.new ≡ over (eight_bytes (place_numbers check place count)) out.old }
{
    let spot = place.spot;
    put_four(out, 0, Returned::from(check));
    put_four(
        out,
        32,
        Returned(place.rows, place.bytes, place.row, place.column as u64),
    );
    put_four(out, 64, spot_numbers(spot));
    (count as u64).put(out, 96);
}

// m zeros from a place on.
fn zeros(out: &mut [u8], at: usize, m: usize)
    requires { at + m ≤ length out.old }
    ensures { out.new ≡ sets out.old at (replicate m 0) }
{
    out[at..at + m].fill(0);
}

// The columns in use, and zeros for those that are not there.
fn put_columns(out: &mut [u8], schema: Schema)
    requires count_le_max_columns { schema.count ≤ max_columns }
    requires max_columns_in_bounds { 4 * max_columns ≤ length out.old }
    ensures { out.new ≡ over (column_bytes schema) out.old }
{
    let count = schema.count;
    put_codes(schema, out);
    zeros(out, 4 * count, 4 * (MAX_COLUMNS - count));
}

// A refused state holds its refusal and nothing else.
pub fn put_refused(out: &mut [u8], refusal: Refusal)
    requires { state_size ≤ length out.old }
    ensures { out.new ≡ over (state_bytes (refused refusal)) out.old }
{
    let place = Place {
        rows: 0,
        bytes: 0,
        row: 0,
        column: 0,
        spot: Spot::Start,
    };
    put_numbers(out, Err(refusal), place, 0);
    zeros(out, NUMBER_BYTES, 4 * MAX_COLUMNS);
}

// Any state, by its parts.
pub fn put_state(out: &mut [u8], check: Result<(), Refusal>, place: Place, schema: Schema)
    requires count_le_max_columns { schema.count ≤ max_columns }
    requires state_size_in_bounds { state_size ≤ length out.old }
    ensures { out.new ≡ over (state_bytes (state_with check place schema)) out.old }
{
    put_numbers(out, check, place, schema.count);
    let from = NUMBER_BYTES;
    put_columns(&mut out[from..], schema);
}
