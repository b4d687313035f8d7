// Join on lent bytes, with local numbers.
#![tactic(auto)]

ghost use Rattle.std.specs.Prelude.{◌≡◌, ◌+◌, length};
ghost use Rattle.format.specs.Promises.{LentJoined};
ghost use Rattle.lent_bytes.specs.Offsets.{first_eights};
ghost use Rattle.sized_join.specs.Order.{Holds, JoinedBytes, Joinable};

use format::Refusal;
use lent_bytes::{put_answer, read_offsets, write_offsets};
use local_numbers::with_numbers;

// Join with offsets and order in bytes: as many offsets are read as there is room for among the first and the second numbers; a success
// stores the order, for which there is room in the list; a refusal stores nothing.
fn join_bytes(
    n0: u64,
    rows0: &[u8],
    offsets0: &[u8],
    n1: u64,
    rows1: &[u8],
    offsets1: &[u8],
    order: &mut [u8],
    first: &mut [u64],
    second: &mut [u64],
    list: &mut [u64],
) -> Result<(u64, u64), Refusal>
    requires { Holds n0 n1 offsets0.now offsets1.now order.old first.old second.old list.old }
    ensures { JoinedBytes n0 rows0.now (first_eights (length first.old) offsets0.now)
        n1 rows1.now (first_eights (length second.old) offsets1.now)
        order.old (length list.old) result order.new }
{
    read_offsets(offsets0, first);
    read_offsets(offsets1, second);
    let totals = station::join::join(n0, rows0, first, n1, rows1, second, list)?;
    write_offsets(list, order);
    Ok(totals)
}

// Join with the numbers that are lent: f for the first offsets, s for the second, and k for the order.
fn join_with(
    n0: u64,
    rows0: &[u8],
    offsets0: &[u8],
    n1: u64,
    rows1: &[u8],
    offsets1: &[u8],
    order: &mut [u8],
    answer: &mut [u8],
    f: usize,
    s: usize,
    k: usize,
    numbers: &mut [u64],
)
    requires joinable { Joinable n0 n1 offsets0.now offsets1.now order.old answer.old f s k }
    requires numbers_len { length numbers.old ≡ f + s + k }
    ensures { LentJoined n0 rows0.now offsets0.now n1 rows1.now offsets1.now order.old
        answer.old order.new answer.new }
{
    let (first, rest) = numbers.split_at_mut(f);
    let (second, list) = rest.split_at_mut(s);
    let r = join_bytes(
        n0, rows0, offsets0, n1, rows1, offsets1, order, first, second, list,
    );
    put_answer(answer, r);
}

// Join with the f and s offsets and the k entries that are used.
pub fn join_sized(
    n0: u64,
    rows0: &[u8],
    offsets0: &[u8],
    n1: u64,
    rows1: &[u8],
    offsets1: &[u8],
    order: &mut [u8],
    answer: &mut [u8],
    f: usize,
    s: usize,
    k: usize,
)
    requires { Joinable n0 n1 offsets0.now offsets1.now order.old answer.old f s k }
    ensures { LentJoined n0 rows0.now offsets0.now n1 rows1.now offsets1.now order.old
        answer.old order.new answer.new }
{
    with_numbers(
        f + s + k,
        &mut |numbers| {
            join_with(
                n0, rows0, offsets0, n1, rows1, offsets1, order, answer, f, s, k, numbers,
            )
        },
    );
}
