// read_list: the columns of a list into lent columns.
#![tactic(auto)]

ghost use Rattle.format.specs.Promises.{ListRead};

use checks::column_room;
use format::{Column, Refusal};

// List, 29, then the columns, in front of the lent ones: their count and 0, or the refusal, which writes nothing.
pub fn read_list(list: &[u8], columns: &mut [Column]) -> Result<(u64, u64), Refusal>
    ensures { ListRead list.now columns.old result columns.new }
{
    let schema = column_room(list_reader::read_list(list), columns.len())?;
    let count = schema.count;
    columns[..count].copy_from_slice(&schema.columns[..count]);
    Ok((count as u64, 0))
}
