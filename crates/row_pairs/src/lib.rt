// Pairs of rows of two sheets, by their numbers: a list that is lent, and after it those in lent bytes.
#![tactic(auto)]

ghost use Rattle.std.specs.Prelude.{◌≡◌, ◌<◌, length, get_or};
ghost use Rattle.format.specs.CompareSheets.{pair_count, pairs_fault};
ghost use Rattle.row_pairs.specs.Pairs.{pair_rows};

use format::Refusal;
use number::Word;

// Row number k of those that are lent: the numbers, and after them those in the bytes, eight a number.
pub fn row_at(numbers: &[u64], bytes: &[u8], k: usize) -> u64
    requires { k < length (pair_rows numbers.now bytes.now) }
    ensures { result ≡ get_or (pair_rows numbers.now bytes.now) k 0 }
{
    let count = numbers.len();
    if k < count {
        return numbers[k];
    }
    u64::low(bytes, 8 * (k - count))
}

// How many pairs they make: an odd last number does not count.
pub fn pair_count(numbers: &[u64], bytes: &[u8]) -> usize
    ensures { result ≡ pair_count (pair_rows numbers.now bytes.now) }
{
    (numbers.len() + bytes.len() / 8) / 2
}

// 32: the first pair with a row that its sheet does not have, of n rows the first sheet and of m rows the second.
#[tactic(auto, using(crate::proofs::Pairs::rows_many))]
pub fn check_pairs(n: u64, m: u64, numbers: &[u64], bytes: &[u8]) -> Result<(), Refusal>
    ensures { result ≡ pairs_fault n m (pair_rows numbers.now bytes.now) 0
        (pair_count (pair_rows numbers.now bytes.now)) }
{
    let pairs = pair_count(numbers, bytes);
    for k in 0..pairs {
        let i = row_at(numbers, bytes, 2 * k);
        let j = row_at(numbers, bytes, 2 * k + 1);
        if n <= i {
            return Err(Refusal::SheetRow(0, i));
        }
        if m <= j {
            return Err(Refusal::SheetRow(1, j));
        }
    }
    Ok(())
}
