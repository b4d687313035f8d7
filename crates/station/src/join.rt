// Joining: the order of the rows of two sorted passes.
ghost use Rattle.format.specs.Promises.{Joined};

use format::Refusal;
use joiner::{check_pass, merge};

// Each pass 6, 14, 15, 12, 26, pass 0 first; then the list, 14; then the order: the rows of both and 0, or the refusal, which
// writes nothing.
pub fn join(
    n0: u64,
    rows0: &[u8],
    offsets0: &[u64],
    n1: u64,
    rows1: &[u8],
    offsets1: &[u64],
    order: &mut [u64],
) -> Result<(u64, u64), Refusal>
    ensures { Joined n0 rows0.now offsets0.now n1 rows1.now offsets1.now order.old
        result order.new }
{
    check_pass(0, n0, rows0, offsets0)?;
    check_pass(1, n1, rows1, offsets1)?;
    let count = n0 + n1;
    if (order.len() as u64) < count {
        return Err(Refusal::OffsetRoom(count));
    }
    merge(
        n0 as usize,
        rows0,
        offsets0,
        n1 as usize,
        rows1,
        offsets1,
        order,
    );
    Ok((count, 0))
}
