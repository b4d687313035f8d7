// One plate of a sorted batch: the rows that the real entry finds.
ghost use Rattle.format.specs.Described.{spelled};
ghost use Rattle.plates.specs.Found.{Finds};

use format::Refusal;
use station::look_up::look_up;

// Looks a key up: the rows found are those whose first k values are the key's.
pub fn find_plate(
    list: &[u8],
    k: u64,
    key: &[u8],
    n: u64,
    rows: &[u8],
    offsets: &[u64],
) -> Result<(u64, u64), Refusal>
    ensures { Finds (spelled list.now) k key.now n rows.now offsets.now result }
{
    look_up(list, k, key, n, rows, offsets)
}
