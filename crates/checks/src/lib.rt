// Checks as definitions have them: 12; and what follows the list: the row count in measure, encode and decode, the room for its columns in
// read_list.
#![tactic(auto)]

ghost use Rattle.std.specs.Prelude.{◌≡◌};
ghost use Rattle.format.specs.Entries.{total_fault};
ghost use Rattle.list_reader.specs.Listing.{OfEach};
ghost use Rattle.checks.specs.Begun.{Begun, ListedFor, OfSpelled};

use format::{Refusal, Schema};

// 12.
pub fn total_fault(total: u64) -> Result<(), Refusal>
    ensures { result ≡ total_fault total }
{
    if format::MAX_TOTAL < total {
        return Err(Refusal::ManyBytes(total, 0));
    }
    Ok(())
}

// The list, then 6.
pub fn begin(listed: Result<Schema, Refusal>, n: u64) -> Result<Schema, Refusal>
    ensures { OfEach listed (λ list. Begun list n result) }
{
    let schema = listed?;
    if format::MAX_ROWS < n {
        return Err(Refusal::ManyRows(n));
    }
    Ok(schema)
}

// The list, then 29: the columns, for which there is room.
pub fn column_room(listed: Result<Schema, Refusal>, room: usize) -> Result<Schema, Refusal>
    ensures { OfSpelled listed (λ list. ListedFor list room result) }
{
    let read = listed?;
    if room < read.count {
        return Err(Refusal::ColumnRoom(read.count));
    }
    Ok(read)
}
