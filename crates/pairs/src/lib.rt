// Rows of two sheets compared under a list that was read, however it came: many pairs of rows, and one.
#![tactic(auto)]

ghost use Rattle.std.specs.Prelude.{◌≡◌};
ghost use Rattle.format.specs.Schemas.{cols_of, Limited};
ghost use Rattle.format.specs.Promises.{SheetsCompared, PairsCompared};
ghost use Rattle.list_reader.specs.Listing.{OfList, OfEach};
ghost use Rattle.row_pairs.specs.Pairs.{pair_rows};
ghost use Rattle.pairs.specs.Counted.{CountedAs};

use comparer::write_orders;
use format::{Refusal, Schema};
use row_pairs::{check_pairs, pair_count};
use sheet_reader::sheet::{Sheeted, check_sheet};

// 6, then the sheet.
fn counted(schema: Schema, n: u64, sheet: &[u8]) -> Result<Sheeted, Refusal>
    requires { Limited schema }
    ensures { CountedAs n (cols_of schema) sheet.now result }
{
    if format::MAX_ROWS < n {
        return Err(Refusal::ManyRows(n));
    }
    check_sheet(schema, n as usize, sheet)
}

// List; 6 and the sheet, first sheet first; 32; 14 of the answers; then an answer to each pair: the pairs and 0, or the refusal, which
// writes nothing. The row numbers are the numbers, and after them those in the bytes.
pub fn compare_pairs_listed(
    listed: Result<Schema, Refusal>,
    n0: u64,
    sheet0: &[u8],
    n1: u64,
    sheet1: &[u8],
    numbers: &[u64],
    bytes: &[u8],
    answers: &mut [u8],
) -> Result<(u64, u64), Refusal>
    requires { OfList listed }
    ensures { OfEach listed (λ list. PairsCompared list n0 sheet0.now n1 sheet1.now
        (pair_rows numbers.now bytes.now) answers.old result answers.new) }
{
    let schema = listed?;
    let first = counted(schema, n0, sheet0)?;
    let second = counted(schema, n1, sheet1)?;
    check_pairs(n0, n1, numbers, bytes)?;
    let pairs = pair_count(numbers, bytes);
    if answers.len() < pairs {
        return Err(Refusal::OffsetRoom(pairs as u64));
    }
    write_orders(
        schema,
        n0 as usize,
        sheet0,
        &first,
        n1 as usize,
        sheet1,
        &second,
        numbers,
        bytes,
        answers,
    );
    Ok((pairs as u64, 0))
}

// The same with all row numbers in a list.
pub fn compare_numbers_listed(
    listed: Result<Schema, Refusal>,
    n0: u64,
    sheet0: &[u8],
    n1: u64,
    sheet1: &[u8],
    pairs: &[u64],
    answers: &mut [u8],
) -> Result<(u64, u64), Refusal>
    requires { OfList listed }
    ensures { OfEach listed (λ list. PairsCompared list n0 sheet0.now n1 sheet1.now pairs.now
        answers.old result answers.new) }
{
    // None: all row numbers are in the list.
    let bytes = [0u8; 0];
    compare_pairs_listed(listed, n0, sheet0, n1, sheet1, pairs, &bytes, answers)
}

// One pair: its answer and 0, or the refusal.
pub fn compare_sheets_listed(
    listed: Result<Schema, Refusal>,
    n0: u64,
    sheet0: &[u8],
    row0: u64,
    n1: u64,
    sheet1: &[u8],
    row1: u64,
) -> Result<(u64, u64), Refusal>
    requires { OfList listed }
    ensures { OfEach listed (λ list. SheetsCompared list n0 sheet0.now row0 n1 sheet1.now row1 result) }
{
    // Arrays: there is no heap, and one pair has two rows and one answer.
    let numbers = [row0, row1];
    let bytes = [0u8; 0];
    let mut answers = [0u8; 1];
    compare_pairs_listed(
        listed,
        n0,
        sheet0,
        n1,
        sheet1,
        &numbers,
        &bytes,
        &mut answers,
    )?;
    Ok((u64::from(answers[0]), 0))
}
