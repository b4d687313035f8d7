// The C entries: a slice is a pointer and a length, offsets and answers are lent as bytes, eight a number, low byte first, and
// descriptions as four bytes a column. Thin over crate `station` and those below it; include/station.h says how to call them. An entry on
// list bytes and the same under descriptions are two names over one function: the C interface.
#![tactic(auto)]

ghost use Rattle.format.specs.Described.{spelled, coded};
ghost use Rattle.format.specs.Promises.{LentListChecked, LentListRead, LentMeasured, LentEncoded, LentDecoded, LentJoined, LentLookedUp, LentSheetsCompared, LentPairsCompared, Compared};

use code_reader::read_codes;
use lent_bytes::{put_answer, used_entries, used_offsets};
use lent_calls::list_codes;
use list_reader::read_list;
use measurer::measure_listed;
use pairs::{compare_pairs_listed, compare_sheets_listed};
use sized_decode::decode_sized;
use sized_encode::encode_sized;
use sized_join::join_sized;
use sized_look_up::look_up_sized;

mod stream;
mod version;

// An answer is four numbers; one that cannot hold them, and no lent byte changes.
const ANSWER_BYTES: usize = 32;

// Checks a column list.
#[unsafe(no_mangle)]
pub extern "C" fn station_check_list(list: &[u8], answer: &mut [u8])
    ensures { LentListChecked list.now answer.old answer.new }
{
    if answer.len() < ANSWER_BYTES {
        return;
    }
    put_answer(answer, station::list::check_list(list));
}

// Checks a column list, and writes its descriptions.
#[unsafe(no_mangle)]
pub extern "C" fn station_read_list(list: &[u8], descriptions: &mut [u8], answer: &mut [u8])
    ensures { LentListRead list.now descriptions.old answer.old descriptions.new answer.new }
{
    if answer.len() < ANSWER_BYTES {
        return;
    }
    let r = list_codes(list, descriptions);
    put_answer(answer, r);
}

// Checks list and sheet, and adds up the row bytes.
#[unsafe(no_mangle)]
pub extern "C" fn station_measure(list: &[u8], n: u64, sheet: &[u8], answer: &mut [u8])
    ensures { LentMeasured (spelled list.now) n sheet.now answer.old answer.new }
{
    if answer.len() < ANSWER_BYTES {
        return;
    }
    put_answer(answer, station::measure::measure(list, n, sheet));
}

// The same under descriptions.
#[unsafe(no_mangle)]
pub extern "C" fn station_measure_read(descriptions: &[u8], n: u64, sheet: &[u8], answer: &mut [u8])
    ensures { LentMeasured (coded descriptions.now) n sheet.now answer.old answer.new }
{
    if answer.len() < ANSWER_BYTES {
        return;
    }
    put_answer(answer, measure_listed(read_codes(descriptions), n, sheet));
}

// Writes the rows of a sheet, and their offsets.
#[unsafe(no_mangle)]
pub extern "C" fn station_encode(
    list: &[u8],
    n: u64,
    sheet: &[u8],
    rows: &mut [u8],
    offsets: &mut [u8],
    answer: &mut [u8],
)
    ensures { LentEncoded (spelled list.now) n sheet.now rows.old offsets.old answer.old
        rows.new offsets.new answer.new }
{
    if answer.len() < ANSWER_BYTES {
        return;
    }
    let k = used_offsets(n, offsets.len());
    encode_sized(read_list(list), n, sheet, rows, offsets, answer, k);
}

// The same under descriptions.
#[unsafe(no_mangle)]
pub extern "C" fn station_encode_read(
    descriptions: &[u8],
    n: u64,
    sheet: &[u8],
    rows: &mut [u8],
    offsets: &mut [u8],
    answer: &mut [u8],
)
    ensures { LentEncoded (coded descriptions.now) n sheet.now rows.old offsets.old answer.old
        rows.new offsets.new answer.new }
{
    if answer.len() < ANSWER_BYTES {
        return;
    }
    let k = used_offsets(n, offsets.len());
    encode_sized(read_codes(descriptions), n, sheet, rows, offsets, answer, k);
}

// Checks rows, and writes their cleared sheet.
#[unsafe(no_mangle)]
pub extern "C" fn station_decode(
    list: &[u8],
    n: u64,
    rows: &[u8],
    offsets: &[u8],
    sheet: &mut [u8],
    answer: &mut [u8],
)
    ensures { LentDecoded (spelled list.now) n rows.now offsets.now sheet.old answer.old
        sheet.new answer.new }
{
    if answer.len() < ANSWER_BYTES {
        return;
    }
    let k = used_offsets(n, offsets.len());
    decode_sized(read_list(list), n, rows, offsets, sheet, answer, k);
}

// The same under descriptions.
#[unsafe(no_mangle)]
pub extern "C" fn station_decode_read(
    descriptions: &[u8],
    n: u64,
    rows: &[u8],
    offsets: &[u8],
    sheet: &mut [u8],
    answer: &mut [u8],
)
    ensures { LentDecoded (coded descriptions.now) n rows.now offsets.now sheet.old answer.old
        sheet.new answer.new }
{
    if answer.len() < ANSWER_BYTES {
        return;
    }
    let k = used_offsets(n, offsets.len());
    decode_sized(read_codes(descriptions), n, rows, offsets, sheet, answer, k);
}

// Writes the joined order of two sorted passes.
#[unsafe(no_mangle)]
pub extern "C" fn station_join(
    n0: u64,
    rows0: &[u8],
    offsets0: &[u8],
    n1: u64,
    rows1: &[u8],
    offsets1: &[u8],
    order: &mut [u8],
    answer: &mut [u8],
)
    ensures { LentJoined n0 rows0.now offsets0.now n1 rows1.now offsets1.now order.old
        answer.old order.new answer.new }
{
    if answer.len() < ANSWER_BYTES {
        return;
    }
    let f = used_offsets(n0, offsets0.len());
    let s = used_offsets(n1, offsets1.len());
    let k = used_entries(n0, n1, order.len());
    join_sized(
        n0, rows0, offsets0, n1, rows1, offsets1, order, answer, f, s, k,
    );
}

// Finds the rows of a sorted batch that begin with a key, the fields of the first k columns.
#[unsafe(no_mangle)]
pub extern "C" fn station_look_up(
    list: &[u8],
    k: u64,
    key: &[u8],
    n: u64,
    rows: &[u8],
    offsets: &[u8],
    answer: &mut [u8],
)
    ensures { LentLookedUp (spelled list.now) k key.now n rows.now offsets.now answer.old
        answer.new }
{
    if answer.len() < ANSWER_BYTES {
        return;
    }
    let used = used_offsets(n, offsets.len());
    look_up_sized(read_list(list), k, key, n, rows, offsets, answer, used);
}

// The same under descriptions.
#[unsafe(no_mangle)]
pub extern "C" fn station_look_up_read(
    descriptions: &[u8],
    k: u64,
    key: &[u8],
    n: u64,
    rows: &[u8],
    offsets: &[u8],
    answer: &mut [u8],
)
    ensures { LentLookedUp (coded descriptions.now) k key.now n rows.now offsets.now answer.old
        answer.new }
{
    if answer.len() < ANSWER_BYTES {
        return;
    }
    let used = used_offsets(n, offsets.len());
    look_up_sized(
        read_codes(descriptions),
        k,
        key,
        n,
        rows,
        offsets,
        answer,
        used,
    );
}

// Compares a row of one sheet with a row of another.
#[unsafe(no_mangle)]
pub extern "C" fn station_compare_sheets(
    list: &[u8],
    n0: u64,
    sheet0: &[u8],
    row0: u64,
    n1: u64,
    sheet1: &[u8],
    row1: u64,
    answer: &mut [u8],
)
    ensures { LentSheetsCompared (spelled list.now) n0 sheet0.now row0 n1 sheet1.now row1
        answer.old answer.new }
{
    if answer.len() < ANSWER_BYTES {
        return;
    }
    put_answer(
        answer,
        compare_sheets_listed(read_list(list), n0, sheet0, row0, n1, sheet1, row1),
    );
}

// The same under descriptions.
#[unsafe(no_mangle)]
pub extern "C" fn station_compare_sheets_read(
    descriptions: &[u8],
    n0: u64,
    sheet0: &[u8],
    row0: u64,
    n1: u64,
    sheet1: &[u8],
    row1: u64,
    answer: &mut [u8],
)
    ensures { LentSheetsCompared (coded descriptions.now) n0 sheet0.now row0 n1 sheet1.now row1
        answer.old answer.new }
{
    if answer.len() < ANSWER_BYTES {
        return;
    }
    put_answer(
        answer,
        compare_sheets_listed(read_codes(descriptions), n0, sheet0, row0, n1, sheet1, row1),
    );
}

// Compares many pairs of rows of two sheets, and writes an answer to each.
#[unsafe(no_mangle)]
pub extern "C" fn station_compare_pairs(
    list: &[u8],
    n0: u64,
    sheet0: &[u8],
    n1: u64,
    sheet1: &[u8],
    pairs: &[u8],
    answers: &mut [u8],
    answer: &mut [u8],
)
    ensures { LentPairsCompared (spelled list.now) n0 sheet0.now n1 sheet1.now pairs.now answers.old
        answer.old answers.new answer.new }
{
    if answer.len() < ANSWER_BYTES {
        return;
    }
    // None: the row numbers stand in the bytes.
    let numbers = [0u64; 0];
    let r = compare_pairs_listed(
        read_list(list),
        n0,
        sheet0,
        n1,
        sheet1,
        &numbers,
        pairs,
        answers,
    );
    put_answer(answer, r);
}

// The same under descriptions.
#[unsafe(no_mangle)]
pub extern "C" fn station_compare_pairs_read(
    descriptions: &[u8],
    n0: u64,
    sheet0: &[u8],
    n1: u64,
    sheet1: &[u8],
    pairs: &[u8],
    answers: &mut [u8],
    answer: &mut [u8],
)
    ensures { LentPairsCompared (coded descriptions.now) n0 sheet0.now n1 sheet1.now pairs.now answers.old
        answer.old answers.new answer.new }
{
    if answer.len() < ANSWER_BYTES {
        return;
    }
    // None: the row numbers stand in the bytes.
    let numbers = [0u64; 0];
    let r = compare_pairs_listed(
        read_codes(descriptions),
        n0,
        sheet0,
        n1,
        sheet1,
        &numbers,
        pairs,
        answers,
    );
    put_answer(answer, r);
}

// Compares any bytes.
#[unsafe(no_mangle)]
pub extern "C" fn station_compare(a: &[u8], b: &[u8]) -> i32
    ensures { Compared a.now b.now result }
{
    station::compare::compare(a, b)
}
