// Encoding: the rows of a sheet into the row buffer, and where each begins and the last ends into the offsets.
ghost use Rattle.format.specs.Described.{spelled};
ghost use Rattle.format.specs.Promises.{Encoded};

use encoder::encode_listed;
use format::Refusal;
use list_reader::read_list;

// List, 6, sheet, 12, 13, 14, then the rows: total row bytes and the null total, or the refusal, which writes nothing.
pub fn encode(
    list: &[u8],
    n: u64,
    sheet: &[u8],
    rows: &mut [u8],
    offsets: &mut [u64],
) -> Result<(u64, u64), Refusal>
    ensures { Encoded (spelled list.now) n sheet.now rows.old offsets.old
        result rows.new offsets.new }
{
    encode_listed(read_list(list), n, sheet, rows, offsets)
}
