// One byte of the stream.
ghost use Rattle.std.specs.Prelude.{◌≡◌, ◌<◌, ◌≤◌};
ghost use Rattle.format.specs.Limits.{max_total};
ghost use Rattle.cutter_step.specs.Places.{Standing, Steps, FieldFits, onward, ended};

use crate::{Place, Stepped};
use cutter_moves::move_in;
use format::{Column, MAX_TOTAL, Refusal, Spot};
use moves::Moved;

// A byte more of the same field.
fn going(place: Place, spot: Spot) -> Place
    requires { (place.bytes < max_total) × (place.row ≤ place.bytes) }
    ensures { result ≡ onward place spot }
{
    Place {
        rows: place.rows,
        bytes: place.bytes + 1,
        row: place.row + 1,
        column: place.column,
        spot: spot,
    }
}

// So many bytes more, which complete the field, and with the last column's the row.
// `count` here and below, and no schema: a step needs one column and how many there are, which the walk has at hand.
pub fn field_ended(place: Place, count: usize, len: u64) -> Stepped
    requires { FieldFits place count len }
    ensures { result ≡ ended place count len }
{
    let bytes = place.bytes + len;
    let next = place.column + 1;
    if next < count {
        return Stepped::Going(Place {
            rows: place.rows,
            bytes: bytes,
            row: place.row + len,
            column: next,
            spot: Spot::Start,
        });
    }
    Stepped::Ended(Place {
        rows: place.rows + 1,
        bytes: bytes,
        row: 0,
        column: 0,
        spot: Spot::Start,
    })
}

// The 16,777,217th is refused 12, before a row fault at that byte.
pub fn step(column: Column, count: usize, place: Place, byte: u8) -> Stepped
    requires { Standing column count place }
    ensures { Steps column count place byte result }
{
    let rows = place.rows;
    let bytes = place.bytes;
    if MAX_TOTAL <= bytes {
        return Stepped::Stopped(Refusal::ManyBytes(MAX_TOTAL + 1, rows));
    }
    let spot = place.spot;
    let moved = move_in(column, spot, place.row, byte);
    match moved {
        Moved::On(next) => Stepped::Going(going(place, next)),
        Moved::Whole => field_ended(place, count, 1),
        Moved::Bad(fault, at) => {
            Stepped::Stopped(Refusal::Row(fault, rows as usize, place.column, at as usize))
        }
    }
}
