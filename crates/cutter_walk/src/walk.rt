// The walk over a piece: bytes to the end of the field that is being read, then whole fields, then the bytes of a field that the piece's end
// cuts.
ghost use Rattle.std.specs.Prelude.{◌≡◌, true, ◌+◌, ◌<◌, ◌≤◌, length, Ok};
ghost use Rattle.format.specs.declared.Spot.TheVariants.{Start};
ghost use Rattle.format.specs.Limits.{max_total};
ghost use Rattle.format.specs.CutterRule.{keeps};
ghost use Rattle.format.specs.Kinds.{column_shape};
ghost use Rattle.format.specs.Read.{field_read, read_field};
ghost use Rattle.cutter_step.specs.Places.{state_at};
ghost use Rattle.plain_fields.specs.Plain.{Lengthy};
ghost use Rattle.cutter_walk.specs.Walks.{StopsAt, Halts, fault_shown, is_cut, placed, Goes, WalkedOn};

use crate::Walked;
use cutter_step::step::step;
use cutter_step::{Place, Stepped};
use field_reader::read_field;
use format::{Column, FieldFault, FieldRead, MAX_TOTAL, Refusal, RowFault, Schema, Spot};
use plain_fields::{plain_lengths, plain_there};

// Whether a walk that goes to the end of a field stands there.
fn stops_at(field: bool, spot: Spot) -> bool
    ensures { result ≡ true → StopsAt field spot }
{
    if !field {
        return false;
    }
    match spot {
        Spot::Start => true,
        _ => false,
    }
}

// Byte by byte, from byte `from` on with `found` ends in the list, to the end of the field or of the piece, or until the list is full.
// `keeps`, here and above: it is about the columns and the numbers of a state together; a `Cutter` would copy the columns with each place.
fn by_bytes(
    schema: Schema,
    place: Place,
    piece: &[u8],
    from: usize,
    ends: &mut [u64],
    found: usize,
    field: bool,
) -> Walked
    requires place_value { keeps (state_at schema place) ≡ true }
    requires found_le_from { found ≤ from }
    requires from_in_bounds { from ≤ length piece.now }
    ensures goes { Goes schema place piece.now from found ends.old result ends.new }
    ensures halts { result.check ≡ Ok tt → result.read < length piece.now → Halts field (length ends.old) result }
{
    let count = schema.count;
    let columns = schema.columns;
    let mut at = place;
    let mut n = found;
    for i in from..piece.len() {
        if ends.len() <= n {
            return Walked {
                check: Ok(()),
                place: at,
                ends: n,
                read: i,
            };
        }
        let spot = at.spot;
        if stops_at(field, spot) {
            return Walked {
                check: Ok(()),
                place: at,
                ends: n,
                read: i,
            };
        }
        let c = at.column;
        let column = columns[c];
        let byte = piece[i];
        let turn = step(column, count, at, byte);
        match turn {
            Stepped::Going(next) => {
                at = next;
            }
            Stepped::Ended(next) => {
                at = next;
                ends[n] = next.bytes;
                n += 1;
            }
            Stepped::Stopped(r) => {
                return Walked {
                    check: Err(r),
                    place: at,
                    ends: n,
                    read: i,
                };
            }
        }
    }
    Walked {
        check: Ok(()),
        place: at,
        ends: n,
        read: piece.len(),
    }
}

fn is_cut(fault: RowFault) -> bool
    ensures { result ≡ is_cut fault }
{
    match fault {
        RowFault::Cut => true,
        _ => false,
    }
}

// The fault that shows in so many bytes of a field, which begins at a place of its row; one that is cut off has none yet.
fn fault_shown(found: FieldFault, rows: u64, c: usize, row: u64, size: usize) -> Result<(), Refusal>
    requires { (found.1 ≤ size) × (row + size ≤ max_total) }
    ensures { result ≡ fault_shown found rows c (row + size) }
{
    let FieldFault(fault, left) = found;
    if is_cut(fault) {
        return Ok(());
    }
    let at = row as usize + size - left;
    Err(Refusal::Row(fault, rows as usize, c, at))
}

// How many of so many bytes the stream may still hold.
fn open_bytes(left: usize, bytes: u64) -> usize
    requires { bytes ≤ max_total }
    ensures { (result ≤ left) × (bytes + result ≤ max_total) }
{
    let room = (MAX_TOTAL - bytes) as usize;
    if left < room {
        return left;
    }
    room
}

// Where a walk over fields stands.
fn walked(
    check: Result<(), Refusal>,
    rows: u64,
    bytes: u64,
    row: u64,
    c: usize,
    n: usize,
    i: usize,
) -> Walked
    ensures { result ≡ placed check rows bytes row c n i }
{
    let place = Place {
        rows: rows,
        bytes: bytes,
        row: row,
        column: c,
        spot: Spot::Start,
    };
    Walked {
        check: check,
        place: place,
        ends: n,
        read: i,
    }
}

// The field in front of some bytes: where a plain field stands there, without its reader.
fn quick_field(rest: &[u8], column: Column, plain: usize) -> Result<FieldRead, FieldFault>
    requires { Lengthy column plain }
    ensures { result ≡ field_read rest.now (read_field (column_shape column) column.options rest.now) }
{
    if plain_there(rest, 0, plain) {
        return Ok(FieldRead {
            length: plain,
            value: Some(plain - 1),
        });
    }
    read_field(rest, column)
}

// Whole fields, to the first that the piece does not have whole, or until the list is full. The field reader is given what is left of the
// piece, cut to what the stream may still hold, so that 12 comes before a fault past it. No `?` in it: the ends before a fault count.
fn by_fields(
    schema: Schema,
    place: Place,
    piece: &[u8],
    from: usize,
    ends: &mut [u64],
    found: usize,
) -> Walked
    requires place_value { keeps (state_at schema place) ≡ true }
    requires spot_value { place.spot ≡ Start }
    requires found_le_from { found ≤ from }
    requires from_in_bounds { from ≤ length piece.now }
    ensures { Goes schema place piece.now from found ends.old result ends.new }
{
    let count = schema.count;
    let columns = schema.columns;
    let mut rows = place.rows;
    let mut bytes = place.bytes;
    let mut row = place.row;
    let mut c = place.column;
    let end = from + open_bytes(piece.len() - from, bytes);
    let lengths = plain_lengths(schema);
    let mut n = found;
    let mut i = from;
    // A `while`: a turn goes on by the field that it has read.
    while i < end {
        if ends.len() <= n {
            return walked(Ok(()), rows, bytes, row, c, n, i);
        }
        let column = columns[c];
        let plain = lengths[c];
        let rest = &piece[i..end];
        let len = match quick_field(rest, column, plain) {
            Ok(read) => read.length,
            Err(fault) => {
                let check = fault_shown(fault, rows, c, row, end - i);
                return walked(check, rows, bytes, row, c, n, i);
            }
        };
        bytes += len as u64;
        i += len;
        if c + 1 < count {
            row += len as u64;
            c += 1;
        } else {
            ends[n] = bytes;
            n += 1;
            rows += 1;
            row = 0;
            c = 0;
        }
    }
    walked(Ok(()), rows, bytes, row, c, n, i)
}

// The end of each row that the piece completes goes to the list; where the list is full the walk stands within the piece. No `?` in it: the ends
// before a refusal count.
pub fn walk(schema: Schema, place: Place, piece: &[u8], ends: &mut [u64]) -> Walked
    requires { keeps (state_at schema place) ≡ true }
    ensures walked_on { WalkedOn result.check schema place piece.now ends.old result ends.new }
    ensures ends_len_bound { result.check ≡ Ok tt → result.read < length piece.now → length ends.old ≤ result.ends }
{
    let first = by_bytes(schema, place, piece, 0, ends, 0, true);
    let check = first.check;
    if let Err(_) = check {
        return first;
    }
    let from = first.read;
    if piece.len() <= from {
        return first;
    }
    if ends.len() <= first.ends {
        return first;
    }
    let next = by_fields(schema, first.place, piece, from, ends, first.ends);
    let check = next.check;
    if let Err(_) = check {
        return next;
    }
    by_bytes(schema, next.place, piece, next.read, ends, next.ends, false)
}
