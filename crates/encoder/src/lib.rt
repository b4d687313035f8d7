// Encoding under a list that was read, however it came: the rows of a sheet into the row buffer, and where each begins and the last ends
// into the offsets.
#![tactic(auto)]

ghost use Rattle.format.specs.Promises.{Encoded};
ghost use Rattle.list_reader.specs.Listing.{OfList, OfEach};

use checks::total_fault;
use format::{Refusal, Schema};
use measurer::measure_batch;
use room_checks::rows::room_fault;
use row_writer::write_rows;

// List, 6, sheet, 12, 13, 14, then the rows: total row bytes and the null total, or the refusal, which writes nothing.
pub fn encode_listed(
    listed: Result<Schema, Refusal>,
    n: u64,
    sheet: &[u8],
    rows: &mut [u8],
    offsets: &mut [u64],
) -> Result<(u64, u64), Refusal>
    requires { OfList listed }
    ensures { OfEach listed (λ list. Encoded list n sheet.now rows.old offsets.old
        result rows.new offsets.new) }
{
    let m = measure_batch(listed, n, sheet)?;
    total_fault(m.total)?;
    room_fault(m.total, rows.len() as u64, n, offsets.len() as u64)?;
    let facts = &m.sheeted.facts[..m.schema.count];
    write_rows(n as usize, sheet, facts, rows, offsets);
    Ok((m.total, m.sheeted.nulls))
}
