// A piece in parts, each with as many rows as a small array has room for their ends.
ghost use Rattle.std.specs.Prelude.{◌≡◌, true, ◌/◌, ◌≤◌, length};
ghost use Rattle.format.specs.CutterRule.{keeps};
ghost use Rattle.cutter_step.specs.Places.{state_at};
ghost use Rattle.cutter_bytes.specs.Calls.{WalksLent};

use cutter_step::Place;
use cutter_walk::Walked;
use cutter_walk::walk::walk;
use format::Schema;
use lent_bytes::write_offsets;

// Each part is walked, and the ends found in it are stored after those before; a refusal ends it.
// The room for ends, here and below: it is about two slices, which no type says in plainer words.
fn walk_parts(
    schema: Schema,
    place: Place,
    piece: &[u8],
    ends: &mut [u8],
    numbers: &mut [u64],
) -> Walked
    requires place_value { keeps (state_at schema place) ≡ true }
    requires piece_in_bounds { length piece.now ≤ length ends.old / 8 }
    requires in_bounds { 1 ≤ length numbers.old }
    ensures { WalksLent schema place piece.now ends.old result ends.new }
{
    let mut at = place;
    let mut n = 0;
    let mut i = 0;
    // A `while`: a turn goes on by as many bytes as its walk has read.
    while i < piece.len() {
        let rest = &piece[i..];
        let walked = walk(schema, at, rest, numbers);
        let k = walked.ends;
        let from = 8 * n;
        write_offsets(&numbers[..k], &mut ends[from..]);
        n += k;
        at = walked.place;
        let check = walked.check;
        // No `?`: the ends before the refusal count.
        if let Err(r) = check {
            return Walked {
                check: Err(r),
                place: at,
                ends: n,
                read: i,
            };
        }
        i += walked.read;
    }
    Walked {
        check: Ok(()),
        place: at,
        ends: n,
        read: i,
    }
}

// Parts of N rows.
fn walk_in<const N: usize>(schema: Schema, place: Place, piece: &[u8], ends: &mut [u8]) -> Walked
    requires size { (1 ≤ N) × (N ≤ 256) }
    requires place_value { keeps (state_at schema place) ≡ true }
    requires piece_in_bounds { length piece.now ≤ length ends.old / 8 }
    ensures { WalksLent schema place piece.now ends.old result ends.new }
{
    // No Vec: the library has no heap.
    let mut numbers = [0u64; N];
    walk_parts(schema, place, piece, ends, &mut numbers)
}

// A whole piece: an array of 8 costs a call of one byte little. These are not `local_numbers`, whose frames take 832 bytes more of the stack.
pub fn walk_sized(schema: Schema, place: Place, piece: &[u8], ends: &mut [u8]) -> Walked
    requires place_value { keeps (state_at schema place) ≡ true }
    requires piece_in_bounds { length piece.now ≤ length ends.old / 8 }
    ensures { WalksLent schema place piece.now ends.old result ends.new }
{
    if piece.len() <= 8 {
        return walk_in::<8>(schema, place, piece, ends);
    }
    walk_in::<256>(schema, place, piece, ends)
}
