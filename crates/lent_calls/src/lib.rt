// read_list into codes, four bytes a column.
#![tactic(auto)]

ghost use Rattle.lent_calls.specs.Stored.{ReadCodes};

use checks::column_room;
use code_writer::put_codes;
use format::Refusal;
use list_reader::read_list;

// List, 29, then the codes: the column count and 0, or the refusal, which writes nothing. A tail shorter than four bytes is no room.
pub fn list_codes(list: &[u8], codes: &mut [u8]) -> Result<(u64, u64), Refusal>
    ensures { ReadCodes list.now codes.old result codes.new }
{
    let schema = column_room(read_list(list), codes.len() / 4)?;
    put_codes(schema, codes);
    Ok((schema.count as u64, 0))
}
