// Encode on lent bytes, with local numbers.
#![tactic(auto)]

ghost use Rattle.std.specs.Prelude.{length};
ghost use Rattle.format.specs.Promises.{LentEncoded};
ghost use Rattle.list_reader.specs.Listing.{OfEach};
ghost use Rattle.lent_calls.specs.Stored.{Ready};

use encoded_bytes::encode_bytes;
use format::{Refusal, Schema};
use lent_bytes::put_answer;
use local_numbers::with_numbers;

// Encode with the numbers that are lent.
fn encode_with(
    listed: Result<Schema, Refusal>,
    n: u64,
    sheet: &[u8],
    rows: &mut [u8],
    offsets: &mut [u8],
    answer: &mut [u8],
    numbers: &mut [u64],
)
    requires { Ready listed n offsets.old answer.old (length numbers.old) }
    ensures { OfEach listed (λ list. LentEncoded list n sheet.now rows.old offsets.old answer.old
        rows.new offsets.new answer.new) }
{
    let r = encode_bytes(listed, n, sheet, rows, offsets, numbers);
    put_answer(answer, r);
}

// Encode with the k offsets that are used.
pub fn encode_sized(
    listed: Result<Schema, Refusal>,
    n: u64,
    sheet: &[u8],
    rows: &mut [u8],
    offsets: &mut [u8],
    answer: &mut [u8],
    k: usize,
)
    requires { Ready listed n offsets.old answer.old k }
    ensures { OfEach listed (λ list. LentEncoded list n sheet.now rows.old offsets.old answer.old
        rows.new offsets.new answer.new) }
{
    with_numbers(
        k,
        &mut |numbers| { encode_with(listed, n, sheet, rows, offsets, answer, numbers) },
    );
}
