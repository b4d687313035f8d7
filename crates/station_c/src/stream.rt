// The row cutter: rows from a pipe, with no offsets. Its state is lent as bytes, and so are the ends of the rows, eight bytes a number.
ghost use Rattle.format.specs.Described.{spelled, coded};
ghost use Rattle.format.specs.Promises.{LentStarted, LentPieceCut, LentFinished};

use crate::ANSWER_BYTES;
use code_reader::read_codes;
use cutter_bytes::{cut_lent, finish_lent, start_lent};
use lent_bytes::put_answer;
use list_reader::read_list;

// Starts a cutter under a column list, and writes its state.
#[unsafe(no_mangle)]
pub extern "C" fn station_cutter_start(list: &[u8], state: &mut [u8], answer: &mut [u8])
    ensures { LentStarted (spelled list.now) state.old answer.old state.new answer.new }
{
    if answer.len() < ANSWER_BYTES {
        return;
    }
    let r = start_lent(read_list(list), state);
    put_answer(answer, r);
}

// The same under descriptions.
#[unsafe(no_mangle)]
pub extern "C" fn station_cutter_start_read(
    descriptions: &[u8],
    state: &mut [u8],
    answer: &mut [u8],
)
    ensures { LentStarted (coded descriptions.now) state.old answer.old state.new answer.new }
{
    if answer.len() < ANSWER_BYTES {
        return;
    }
    let r = start_lent(read_codes(descriptions), state);
    put_answer(answer, r);
}

// Takes a piece of the stream, and writes the ends of the rows that it completes, and the state after it.
#[unsafe(no_mangle)]
pub extern "C" fn station_cut(state: &mut [u8], piece: &[u8], ends: &mut [u8], answer: &mut [u8])
    ensures { LentPieceCut state.old piece.now ends.old answer.old
        state.new ends.new answer.new }
{
    if answer.len() < ANSWER_BYTES {
        return;
    }
    let r = cut_lent(state, piece, ends);
    put_answer(answer, r);
}

// Says whether the stream ended with a row.
#[unsafe(no_mangle)]
pub extern "C" fn station_cutter_finish(state: &[u8], answer: &mut [u8])
    ensures { LentFinished state.now answer.old answer.new }
{
    if answer.len() < ANSWER_BYTES {
        return;
    }
    put_answer(answer, finish_lent(state));
}
