// Decode on lent bytes, with local numbers.
#![tactic(auto)]

ghost use Rattle.std.specs.Prelude.{length};
ghost use Rattle.format.specs.Promises.{LentDecoded};
ghost use Rattle.list_reader.specs.Listing.{OfEach};
ghost use Rattle.lent_calls.specs.Stored.{Ready};

use decoder::decode_listed;
use format::{Refusal, Schema};
use lent_bytes::{put_answer, read_offsets};
use local_numbers::with_numbers;

// Decode with the numbers that are lent, which take as many offsets.
fn decode_with(
    listed: Result<Schema, Refusal>,
    n: u64,
    rows: &[u8],
    offsets: &[u8],
    sheet: &mut [u8],
    answer: &mut [u8],
    numbers: &mut [u64],
)
    requires { Ready listed n offsets.now answer.old (length numbers.old) }
    ensures { OfEach listed (λ list. LentDecoded list n rows.now offsets.now sheet.old answer.old
        sheet.new answer.new) }
{
    read_offsets(offsets, numbers);
    let r = decode_listed(listed, n, rows, numbers, sheet);
    put_answer(answer, r);
}

// Decode with the k offsets that are used.
pub fn decode_sized(
    listed: Result<Schema, Refusal>,
    n: u64,
    rows: &[u8],
    offsets: &[u8],
    sheet: &mut [u8],
    answer: &mut [u8],
    k: usize,
)
    requires { Ready listed n offsets.now answer.old k }
    ensures { OfEach listed (λ list. LentDecoded list n rows.now offsets.now sheet.old answer.old
        sheet.new answer.new) }
{
    with_numbers(
        k,
        &mut |numbers| { decode_with(listed, n, rows, offsets, sheet, answer, numbers) },
    );
}
