// Comparing rows of two sheets under one list, straight from the values: one row of each, and many pairs.
ghost use Rattle.format.specs.Described.{spelled};
ghost use Rattle.format.specs.Promises.{SheetsCompared, PairsCompared};

use format::Refusal;
use list_reader::read_list;
use pairs::{compare_numbers_listed, compare_sheets_listed};

// List; 6 and the sheet, first sheet first; 32: then 0, 1 or 2 for below, equal or above, and 0; or the refusal.
pub fn compare_sheets(
    list: &[u8],
    n0: u64,
    sheet0: &[u8],
    row0: u64,
    n1: u64,
    sheet1: &[u8],
    row1: u64,
) -> Result<(u64, u64), Refusal>
    ensures { SheetsCompared (spelled list.now) n0 sheet0.now row0 n1 sheet1.now row1 result }
{
    compare_sheets_listed(read_list(list), n0, sheet0, row0, n1, sheet1, row1)
}

// The same for many pairs, two row numbers each, and then 14 of the answers: the pairs and 0, or the refusal, which writes nothing.
pub fn compare_pairs(
    list: &[u8],
    n0: u64,
    sheet0: &[u8],
    n1: u64,
    sheet1: &[u8],
    pairs: &[u64],
    answers: &mut [u8],
) -> Result<(u64, u64), Refusal>
    ensures { PairsCompared (spelled list.now) n0 sheet0.now n1 sheet1.now pairs.now answers.old
        result answers.new }
{
    compare_numbers_listed(read_list(list), n0, sheet0, n1, sheet1, pairs, answers)
}
