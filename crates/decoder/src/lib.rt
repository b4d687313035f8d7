// Decoding under a list that was read, however it came: the cleared sheet of a batch of rows.
#![tactic(auto)]

ghost use Rattle.format.specs.Promises.{Decoded};
ghost use Rattle.list_reader.specs.Listing.{OfList, OfEach};

use batch_reader::check_rows;
use checks::begin;
use format::{Refusal, Schema};
use room_checks::sheet::room_fault;
use sheet_writer::write_sheet;

// List, 6, 14, 15, 12, rows, 24, then the sheet: sheet bytes and the null total, or the refusal, which writes nothing.
pub fn decode_listed(
    listed: Result<Schema, Refusal>,
    n: u64,
    rows: &[u8],
    offsets: &[u64],
    sheet: &mut [u8],
) -> Result<(u64, u64), Refusal>
    requires { OfList listed }
    ensures { OfEach listed (λ list. Decoded list n rows.now offsets.now sheet.old result sheet.new) }
{
    let schema = begin(listed, n)?;
    let bytes = check_rows(schema, n as usize, rows, offsets)?;
    room_fault(bytes, sheet.len())?;
    let written = write_sheet(schema, n as usize, rows, offsets, sheet);
    Ok((bytes as u64, written.nulls))
}
