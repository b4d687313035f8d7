// The cutter: a start, a call for each piece, and the finish.
ghost use Rattle.std.specs.Prelude.{◌≡◌, ◌<◌, replicate};
ghost use Rattle.format.specs.Limits.{max_columns};
ghost use Rattle.format.specs.Schemas.{no_column};
ghost use Rattle.format.specs.Cutter.{refused as refusedOf};
ghost use Rattle.format.specs.Promises.{Started, PieceCut, Finished};
ghost use Rattle.list_reader.specs.Listing.{OfEach};
ghost use Rattle.cutter_step.specs.Places.{state_at};
ghost use Rattle.cutter.specs.Calls.{kept_back, leaves, CutIn};

use crate::{Counted, Cutting, Left, place_of};
use cutter_rule::keeps;
use cutter_step::Place;
use cutter_walk::walk::walk;
use format::{Column, Cutter, MAX_COLUMNS, Refusal, Returned, RowFault, Schema, Spot};

// No columns. The store changes nothing; that its place is not known beforehand keeps the array one thing in memory, where an array of constants
// would be taken apart, and with it every copy of a state.
fn no_columns(c: usize) -> [Column; MAX_COLUMNS]
    requires { c < max_columns }
    ensures { result ≡ replicate max_columns no_column }
{
    // No Vec: the library has no heap.
    let none = Column::default();
    let mut columns = [none; MAX_COLUMNS];
    columns[c] = none;
    columns
}

// A refused state holds its refusal and nothing else. No `From`: by the orphan rule it would stand in crate `format`, away from the calls whose
// speed `no_columns` keeps.
fn refused(refusal: Refusal) -> Cutter
    ensures { result ≡ refusedOf refusal }
{
    let numbers = Returned::from(refusal);
    let number = numbers.0 as usize;
    let columns = no_columns(number % MAX_COLUMNS);
    let schema = Schema {
        columns: columns,
        count: 0,
    };
    Cutter {
        schema: schema,
        refusal: Err(refusal),
        rows: 0,
        bytes: 0,
        row: 0,
        column: 0,
        spot: Spot::Start,
    }
}

// The state with these columns and numbers.
fn state_at(schema: Schema, place: Place) -> Cutter
    ensures { result ≡ state_at schema place }
{
    let spot = place.spot;
    Cutter {
        schema: schema,
        refusal: Ok(()),
        rows: place.rows,
        bytes: place.bytes,
        row: place.row,
        column: place.column,
        spot: spot,
    }
}

// Before the first byte, under a list that was read; on a list fault the state is refused.
pub fn start_listed(listed: Result<Schema, Refusal>) -> Cutting
    ensures { OfEach listed (λ list. Started list result.answer result.state) }
{
    match listed {
        Ok(schema) => {
            let place = Place {
                rows: 0,
                bytes: 0,
                row: 0,
                column: 0,
                spot: Spot::Start,
            };
            Cutting {
                state: state_at(schema, place),
                answer: Ok((schema.count as u64, 0)),
            }
        }
        Err(r) => Cutting {
            state: refused(r),
            answer: Err(r),
        },
    }
}

// Refused before a byte is read: nothing changes.
fn kept_back(refusal: Refusal) -> Counted
    ensures { result ≡ kept_back refusal }
{
    Counted {
        answer: Err(refusal),
        left: Left::Same,
        ends: 0,
    }
}

// A piece: 33, then the refusal that stands, then 14, then byte by byte. No `?` in it: beside a refusal it tells what is left of the state.
pub fn cut_counted(state: Cutter, piece: &[u8], ends: &mut [u64]) -> Counted
    ensures { CutIn state piece.now ends.old result ends.new }
{
    if !keeps(state) {
        return kept_back(Refusal::BrokenState);
    }
    let refusal = state.refusal;
    if let Err(r) = refusal {
        return kept_back(r);
    }
    if ends.len() < piece.len() {
        return kept_back(Refusal::OffsetRoom(piece.len() as u64));
    }
    let schema = state.schema;
    let walked = walk(schema, place_of(state), piece, ends);
    let check = walked.check;
    let found = walked.ends;
    if let Err(r) = check {
        return Counted {
            answer: Err(r),
            left: Left::Stopped(r),
            ends: found,
        };
    }
    let place = walked.place;
    Counted {
        answer: Ok((found as u64, 0)),
        left: Left::Moved(place),
        ends: found,
    }
}

// The state after a call.
fn state_left(state: Cutter, left: Left) -> Cutter
    ensures { result ≡ leaves state left }
{
    let schema = state.schema;
    match left {
        Left::Same => state,
        Left::Moved(place) => state_at(schema, place),
        Left::Stopped(refusal) => refused(refusal),
    }
}

// The same with the state, columns and all.
pub fn cut(state: Cutter, piece: &[u8], ends: &mut [u64]) -> Cutting
    ensures { PieceCut state piece.now ends.old result.answer result.state ends.new }
{
    let counted = cut_counted(state, piece, ends);
    let answer = counted.answer;
    let left = counted.left;
    let last = state_left(state, left);
    Cutting {
        state: last,
        answer: answer,
    }
}

// The end of the stream: what stands, or 16 within a row. The state stays as it is.
pub fn finish(state: Cutter) -> Result<(u64, u64), Refusal>
    ensures { Finished state result }
{
    if !keeps(state) {
        return Err(Refusal::BrokenState);
    }
    state.refusal?;
    let rows = state.rows;
    let row = state.row;
    let column = state.column;
    if 0 < row {
        return Err(Refusal::Row(RowFault::Cut, rows as usize, column, row as usize));
    }
    Ok((rows, 0))
}
