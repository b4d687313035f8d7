// A state, read back.
ghost use Rattle.std.specs.Prelude.{◌≡◌, cond, ◌*◌, ◌≤◌, leb, length, take};
ghost use Rattle.format.specs.Limits.{max_columns};
ghost use Rattle.format.specs.Lists.{each};
ghost use Rattle.format.specs.Schemas.{schema_of};
ghost use Rattle.format.specs.Described.{code_at, column_of};
ghost use Rattle.format.specs.CutterBytes.{check_of, spot_of, state_bytes, state_size, state_of, same};
ghost use Rattle.state_bytes.specs.Written.{state_with};

use crate::write::put_state;
use crate::{NUMBER_BYTES, STATE_BYTES};
use code_reader::coded_column;
use cutter_step::Place;
use format::{Column, Cutter, MAX_COLUMNS, Refusal, RowFault, Schema, Spot};
use number::Word;

// The refusal of four numbers; any that a state cannot hold is 33. No `From`, here and below: these read this crate's layout, which by the
// orphan rule would then stand in crate `format`.
fn check_of(a: u64, b: u64, c: u64, d: u64) -> Result<(), Refusal>
    ensures { result ≡ check_of a b c d }
{
    let second = b as usize;
    let third = c as usize;
    let fourth = d as usize;
    match a {
        0 => Ok(()),
        1 => Err(Refusal::ListCut(second)),
        2 => Err(Refusal::UnknownKind(second)),
        3 => Err(Refusal::OptionBits(second)),
        4 => Err(Refusal::Width(second)),
        5 => Err(Refusal::ManyColumns(second)),
        12 => Err(Refusal::ManyBytes(b, c)),
        17 => Err(Refusal::Row(RowFault::Lead, second, third, fourth)),
        18 => Err(Refusal::Row(RowFault::NullRest, second, third, fourth)),
        19 => Err(Refusal::Row(RowFault::BoolByte, second, third, fourth)),
        20 => Err(Refusal::Row(RowFault::EndByte, second, third, fourth)),
        21 => Err(Refusal::Row(RowFault::Padding, second, third, fourth)),
        23 => Err(Refusal::Row(RowFault::TooLong, second, third, fourth)),
        28 => Err(Refusal::Row(RowFault::Unfolded, second, third, fourth)),
        _ => Err(Refusal::BrokenState),
    }
}

fn spot_of(p: u64, a: u64, b: u64, c: u64) -> Spot
    ensures { result ≡ spot_of p a b c }
{
    match p {
        1 => Spot::Nulls(a as usize, b),
        2 => Spot::Value(a as usize, b),
        3 => Spot::Block(a as usize, b as usize, c),
        _ => Spot::Start,
    }
}

// How many columns a number says: more than there may be are none.
fn columns_said(said: u64) -> usize
    ensures { (result ≡ cond (leb said max_columns) said 0) × (result ≤ max_columns) }
{
    if said <= MAX_COLUMNS as u64 {
        return said as usize;
    }
    0
}

// So many columns, four bytes each.
// `count` is a number of the state, not the length of what is lent. An array, here and below, no Vec: the library has no heap.
fn read_columns(codes: &[u8], count: usize) -> Schema
    requires count_le_max_columns { count ≤ max_columns }
    requires max_columns_in_bounds { 4 * max_columns ≤ length codes.now }
    ensures { result ≡ schema_of (each 0 count (λ i. column_of (code_at codes.now i))) }
{
    let mut columns = [Column::default(); MAX_COLUMNS];
    for i in 0..count {
        columns[i] = coded_column(codes, i);
    }
    Schema {
        columns: columns,
        count: count,
    }
}

// The state that lent bytes say.
pub fn read_state(state: &[u8]) -> Cutter
    requires { state_size ≤ length state.now }
    ensures { result ≡ state_of (take state_size state.now) }
{
    let from = NUMBER_BYTES;
    let schema = read_columns(&state[from..], columns_said(u64::low(state, 96)));
    let refusal = check_of(
        u64::low(state, 0),
        u64::low(state, 8),
        u64::low(state, 16),
        u64::low(state, 24),
    );
    let spot = spot_of(
        u64::low(state, 64),
        u64::low(state, 72),
        u64::low(state, 80),
        u64::low(state, 88),
    );
    Cutter {
        schema: schema,
        refusal: refusal,
        rows: u64::low(state, 32),
        bytes: u64::low(state, 40),
        row: u64::low(state, 48),
        column: u64::low(state, 56) as usize,
        spot: spot,
    }
}

// Whether the bytes of two states are the same, word by word; bytes after them mean nothing. To do: `==` of slices.
fn same_bytes(a: &[u8], b: &[u8]) -> bool
    requires state_size_in_bounds { state_size ≤ length a.now }
    requires state_size_in_bounds_2 { state_size ≤ length b.now }
    ensures { result ≡ same (take state_size a.now) (take state_size b.now) }
{
    for i in 0..STATE_BYTES / 8 {
        if u64::low(a, 8 * i) != u64::low(b, 8 * i) {
            return false;
        }
    }
    true
}

// Whether these bytes are those that a state is written as, by its parts.
pub fn written_as(state: &[u8], check: Result<(), Refusal>, place: Place, schema: Schema) -> bool
    requires count_le_max_columns { schema.count ≤ max_columns }
    requires state_size_in_bounds { state_size ≤ length state.now }
    ensures { result ≡ same (state_bytes (state_with check place schema)) (take state_size state.now) }
{
    let mut again = [0u8; STATE_BYTES];
    put_state(&mut again, check, place, schema);
    same_bytes(&again, state)
}
