// The public entries on lent columns: those of crate station, with exactly the columns handed on in place of list bytes. README names both; each
// is one call of one function.
#![tactic(auto)]

ghost use Rattle.format.specs.Described.{described as described·};
ghost use Rattle.format.specs.Promises.{Measured, Encoded, Decoded, LookedUp, Started, SheetsCompared, PairsCompared};

use cutter::{Cutting, start_listed};
use decoder::decode_listed;
use encoder::encode_listed;
use format::{Column, Refusal};
use lent_columns::described;
use measurer::measure_listed;
use pairs::{compare_numbers_listed, compare_sheets_listed};
use searcher::look_up_listed;

// Total row bytes and the null total, or the refusal.
pub fn measure_read(columns: &[Column], n: u64, sheet: &[u8]) -> Result<(u64, u64), Refusal>
    ensures { Measured (described· columns.now) n sheet.now result }
{
    measure_listed(described(columns), n, sheet)
}

// Total row bytes and the null total, or the refusal, which writes nothing.
pub fn encode_read(
    columns: &[Column],
    n: u64,
    sheet: &[u8],
    rows: &mut [u8],
    offsets: &mut [u64],
) -> Result<(u64, u64), Refusal>
    ensures { Encoded (described· columns.now) n sheet.now rows.old offsets.old
        result rows.new offsets.new }
{
    encode_listed(described(columns), n, sheet, rows, offsets)
}

// Sheet bytes and the null total, or the refusal, which writes nothing.
pub fn decode_read(
    columns: &[Column],
    n: u64,
    rows: &[u8],
    offsets: &[u64],
    sheet: &mut [u8],
) -> Result<(u64, u64), Refusal>
    ensures { Decoded (described· columns.now) n rows.now offsets.now sheet.old result sheet.new }
{
    decode_listed(described(columns), n, rows, offsets, sheet)
}

// The first row that begins with the key and one past the last, or the refusal.
pub fn look_up_read(
    columns: &[Column],
    k: u64,
    key: &[u8],
    n: u64,
    rows: &[u8],
    offsets: &[u64],
) -> Result<(u64, u64), Refusal>
    ensures { LookedUp (described· columns.now) k key.now n rows.now offsets.now result }
{
    look_up_listed(described(columns), k, key, n, rows, offsets)
}

// 0, 1 or 2 for below, equal or above, and 0; or the refusal.
pub fn compare_sheets_read(
    columns: &[Column],
    n0: u64,
    sheet0: &[u8],
    row0: u64,
    n1: u64,
    sheet1: &[u8],
    row1: u64,
) -> Result<(u64, u64), Refusal>
    ensures { SheetsCompared (described· columns.now) n0 sheet0.now row0 n1 sheet1.now row1 result }
{
    compare_sheets_listed(described(columns), n0, sheet0, row0, n1, sheet1, row1)
}

// The same for many pairs, two row numbers each: the pairs and 0, or the refusal, which writes nothing.
pub fn compare_pairs_read(
    columns: &[Column],
    n0: u64,
    sheet0: &[u8],
    n1: u64,
    sheet1: &[u8],
    pairs: &[u64],
    answers: &mut [u8],
) -> Result<(u64, u64), Refusal>
    ensures { PairsCompared (described· columns.now) n0 sheet0.now n1 sheet1.now pairs.now answers.old
        result answers.new }
{
    compare_numbers_listed(described(columns), n0, sheet0, n1, sheet1, pairs, answers)
}

// The column count and 0, or the refusal; and the row cutter's state before the first byte.
pub fn start_read(columns: &[Column]) -> Cutting
    ensures { Started (described· columns.now) result.answer result.state }
{
    start_listed(described(columns))
}
