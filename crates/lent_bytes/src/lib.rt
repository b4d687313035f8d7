// Numbers in lent bytes, eight bytes a number, low byte first: the offsets and the answer.
#![tactic(auto)]

ghost use Rattle.std.specs.Prelude.{◌≡◌, ◌*◌, ◌/◌, ◌≤◌, length};
ghost use Rattle.format.specs.Lists.{over};
ghost use Rattle.format.specs.Numbers.{numbers_of};
ghost use Rattle.format.specs.Lent.{answer_room, eight_bytes, number_bytes};
ghost use Rattle.lent_bytes.specs.Offsets.{first_eights, Used};

use format::{Refusal, Returned};
use number::Word;

mod entries;

pub use entries::used_entries;

// The four numbers of an answer, in front of the lent bytes.
pub fn put_answer(lent: &mut [u8], answer: Result<(u64, u64), Refusal>)
    requires { answer_room ≤ length lent.old }
    ensures { lent.new ≡ over (number_bytes (numbers_of answer)) lent.old }
{
    let numbers = Returned::from(answer);
    numbers.0.put(lent, 0);
    numbers.1.put(lent, 8);
    numbers.2.put(lent, 16);
    numbers.3.put(lent, 24);
}

// How many of the offsets in so many lent bytes a batch of n rows uses: n + 1, or all if there are fewer, and none of too
// many rows.
pub fn used_offsets(n: u64, bytes: usize) -> usize
    ensures { Used n (bytes / 8) result }
{
    if format::MAX_ROWS < n {
        return 0;
    }
    let room = bytes / 8;
    if room as u64 <= n {
        return room;
    }
    n as usize + 1
}

// Fills the numbers with those that the lent bytes begin with.
pub fn read_offsets(offsets: &[u8], numbers: &mut [u64])
    requires { 8 * length numbers.old ≤ length offsets.now }
    ensures { numbers.new ≡ first_eights (length numbers.old) offsets.now }
{
    for (i, number) in numbers.iter_mut().enumerate() {
        *number = u64::low(offsets, 8 * i);
    }
}

// Stores the numbers in front of the lent bytes; what is past them stays.
pub fn write_offsets(numbers: &[u64], offsets: &mut [u8])
    requires { 8 * length numbers.now ≤ length offsets.old }
    ensures { offsets.new ≡ over (eight_bytes numbers.now) offsets.old }
{
    for (i, number) in numbers.iter().enumerate() {
        number.put(offsets, 8 * i);
    }
}
