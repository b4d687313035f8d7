// Encode with offsets in lent bytes, eight bytes a number, low byte first.
#![tactic(auto)]

ghost use Rattle.std.specs.Prelude.{length};
ghost use Rattle.list_reader.specs.Listing.{OfList, OfEach};
ghost use Rattle.encoded_bytes.specs.Stored.{Held, EncodedBytes};

use encoder::encode_listed;
use format::{Refusal, Schema};
use lent_bytes::write_offsets;

// Encode with offsets in bytes: a success stores the ends of the rows, for which there is room among the numbers; a refusal
// stores nothing. What the lent bytes held is not looked at.
pub fn encode_bytes(
    listed: Result<Schema, Refusal>,
    n: u64,
    sheet: &[u8],
    rows: &mut [u8],
    offsets: &mut [u8],
    numbers: &mut [u64],
) -> Result<(u64, u64), Refusal>
    requires of_list { OfList listed }
    requires held { Held n (length numbers.old) (length offsets.old) }
    ensures { OfEach listed (λ list. EncodedBytes list n sheet.now rows.old offsets.old
        (length numbers.old) result rows.new offsets.new) }
{
    let totals = encode_listed(listed, n, sheet, rows, numbers)?;
    write_offsets(numbers, offsets);
    Ok(totals)
}
