// Checking a column list.
ghost use Rattle.format.specs.Promises.{ListChecked};

use format::Refusal;
use list_reader::read_list;

// The column count and 0, or the refusal.
pub fn check_list(list: &[u8]) -> Result<(u64, u64), Refusal>
    ensures { ListChecked list.now result }
{
    let schema = read_list(list)?;
    Ok((schema.count as u64, 0))
}
