// The cutter's calls on lent bytes.
ghost use Rattle.list_reader.specs.Listing.{OfList, OfEach};
ghost use Rattle.cutter_bytes.specs.Calls.{StartedLent, PieceCutLent, FinishedLent};

use crate::parts::walk_sized;
use cutter::{finish, place_of, start_listed};
use cutter_rule::keeps;
use format::{Refusal, Schema};
use state_bytes::{STATE_BYTES, put_numbers, put_refused, put_state, read_state, written_as};

// Before the first byte, under a list that was read: the state is written on a list fault too.
pub fn start_lent(listed: Result<Schema, Refusal>, state: &mut [u8]) -> Result<(u64, u64), Refusal>
    requires { OfList listed }
    ensures { OfEach listed (λ list. StartedLent list state.old result state.new) }
{
    if state.len() < STATE_BYTES {
        return Err(Refusal::BrokenState);
    }
    let started = start_listed(listed);
    let first = started.state;
    let refusal = first.refusal;
    let schema = first.schema;
    put_state(state, refusal, place_of(first), schema);
    started.answer
}

// A piece: 33, then the refusal that stands, then 14, then byte by byte. The columns are not written again: they stay, or a refused state
// has none.
pub fn cut_lent(state: &mut [u8], piece: &[u8], ends: &mut [u8]) -> Result<(u64, u64), Refusal>
    ensures { PieceCutLent state.old piece.now ends.old result state.new ends.new }
{
    if state.len() < STATE_BYTES {
        return Err(Refusal::BrokenState);
    }
    let s = read_state(state);
    let refusal = s.refusal;
    let schema = s.schema;
    let first = place_of(s);
    if !written_as(state, refusal, first, schema) {
        return Err(Refusal::BrokenState);
    }
    if !keeps(s) {
        return Err(Refusal::BrokenState);
    }
    refusal?;
    if ends.len() / 8 < piece.len() {
        return Err(Refusal::OffsetRoom(piece.len() as u64));
    }
    let walked = walk_sized(schema, first, piece, ends);
    let check = walked.check;
    // No `?`: the refusal is written into the state as well.
    if let Err(r) = check {
        put_refused(state, r);
        return Err(r);
    }
    let place = walked.place;
    put_numbers(state, Ok(()), place, schema.count);
    Ok((walked.ends as u64, 0))
}

// The end of the stream.
pub fn finish_lent(state: &[u8]) -> Result<(u64, u64), Refusal>
    ensures { FinishedLent state.now result }
{
    if state.len() < STATE_BYTES {
        return Err(Refusal::BrokenState);
    }
    let s = read_state(state);
    let refusal = s.refusal;
    let schema = s.schema;
    if !written_as(state, refusal, place_of(s), schema) {
        return Err(Refusal::BrokenState);
    }
    finish(s)
}
