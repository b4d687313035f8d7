// Look-up on lent bytes, with local numbers.
#![tactic(auto)]

ghost use Rattle.std.specs.Prelude.{length};
ghost use Rattle.format.specs.Promises.{LentLookedUp};
ghost use Rattle.list_reader.specs.Listing.{OfEach};
ghost use Rattle.lent_calls.specs.Stored.{Ready};

use format::{Refusal, Schema};
use lent_bytes::{put_answer, read_offsets};
use local_numbers::with_numbers;
use searcher::look_up_listed;

// Look-up with the numbers that are lent, which take as many offsets.
fn look_up_with(
    listed: Result<Schema, Refusal>,
    k: u64,
    key: &[u8],
    n: u64,
    rows: &[u8],
    offsets: &[u8],
    answer: &mut [u8],
    numbers: &mut [u64],
)
    requires { Ready listed n offsets.now answer.old (length numbers.old) }
    ensures { OfEach listed (λ list. LentLookedUp list k key.now n rows.now offsets.now answer.old
        answer.new) }
{
    read_offsets(offsets, numbers);
    let r = look_up_listed(listed, k, key, n, rows, numbers);
    put_answer(answer, r);
}

// Look-up with the offsets that are used, so many.
pub fn look_up_sized(
    listed: Result<Schema, Refusal>,
    k: u64,
    key: &[u8],
    n: u64,
    rows: &[u8],
    offsets: &[u8],
    answer: &mut [u8],
    used: usize,
)
    requires { Ready listed n offsets.now answer.old used }
    ensures { OfEach listed (λ list. LentLookedUp list k key.now n rows.now offsets.now answer.old
        answer.new) }
{
    with_numbers(
        used,
        &mut |numbers| { look_up_with(listed, k, key, n, rows, offsets, answer, numbers) },
    );
}
