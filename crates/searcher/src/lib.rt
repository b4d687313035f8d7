// Looking a key up under a list that was read, however it came: its checks, and then the search for the rows of a sorted batch that begin
// with the key.
#![tactic(auto)]

ghost use Rattle.format.specs.Promises.{LookedUp};
ghost use Rattle.list_reader.specs.Listing.{OfList, OfEach};

use format::{Refusal, Schema};
use halves::find;
use key_checks::{check_batch, check_key};

// List, 31, the key, 6, 14, 15, 12, row faults, 26; then the first row that begins with the key and one past the last, or the refusal.
pub fn look_up_listed(
    listed: Result<Schema, Refusal>,
    k: u64,
    key: &[u8],
    n: u64,
    rows: &[u8],
    offsets: &[u64],
) -> Result<(u64, u64), Refusal>
    requires { OfList listed }
    ensures { OfEach listed (λ list. LookedUp list k key.now n rows.now offsets.now result) }
{
    let schema = listed?;
    check_key(schema, k, key)?;
    check_batch(schema, n, rows, offsets)?;
    let found = find(key, n as usize, rows, offsets);
    Ok((found.first as u64, found.past as u64))
}
