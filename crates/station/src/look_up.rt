// Looking a key up: the rows of a sorted batch that begin with it.
ghost use Rattle.format.specs.Described.{spelled};
ghost use Rattle.format.specs.Promises.{LookedUp};

use format::Refusal;
use list_reader::read_list;
use searcher::look_up_listed;

// List, 31, the key, 6, 14, 15, 12, row faults, 26; then the first row that begins with the key and one past the last, or the refusal.
pub fn look_up(
    list: &[u8],
    k: u64,
    key: &[u8],
    n: u64,
    rows: &[u8],
    offsets: &[u64],
) -> Result<(u64, u64), Refusal>
    ensures { LookedUp (spelled list.now) k key.now n rows.now offsets.now result }
{
    look_up_listed(read_list(list), k, key, n, rows, offsets)
}
