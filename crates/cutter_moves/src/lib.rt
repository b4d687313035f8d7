// What one byte does to the field that it stands in: a function for each place in a field. A byte is looked at once, and what it may mean
// later is a number or two in the spot.
#![tactic(auto)]

ghost use Rattle.std.specs.Prelude.{◌≡◌};
ghost use Rattle.format.specs.Kinds.{column_shape};
ghost use Rattle.format.specs.Cutter.{move as move_of};
ghost use Rattle.moves.specs.Moves.{as_move};
ghost use Rattle.cutter_moves.specs.Moves.{Stood};

use block_moves::block_byte;
use column_facts::width;
use format::{Column, Spot};
use moves::Moved;
use moves::lead::{lead, turned};
use moves::nulls::null_byte;
use value_moves::value_byte;

// A byte of a column's field, by where in the field it stands; `at` is its place in the row.
pub fn move_in(column: Column, spot: Spot, at: u64, byte: u8) -> Moved
    requires { Stood column at spot }
    ensures { as_move result ≡ move_of (column_shape column) column.options spot at byte }
{
    let kind = column.kind;
    let options = column.options;
    match spot {
        Spot::Start => lead(kind, options, at, byte),
        Spot::Nulls(seen, known) => null_byte(width(kind), seen, known, at, byte),
        Spot::Value(seen, spelt) => value_byte(kind, options, seen, spelt, at, byte),
        Spot::Block(k, seen, marks) => { block_byte(k, seen, marks, at, turned(options, byte)) }
    }
}
