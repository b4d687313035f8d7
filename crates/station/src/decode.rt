// Decoding: the cleared sheet of a batch of rows.
ghost use Rattle.format.specs.Described.{spelled};
ghost use Rattle.format.specs.Promises.{Decoded};

use decoder::decode_listed;
use format::Refusal;
use list_reader::read_list;

// List, 6, 14, 15, 12, rows, 24, then the sheet: sheet bytes and the null total, or the refusal, which writes nothing.
pub fn decode(
    list: &[u8],
    n: u64,
    rows: &[u8],
    offsets: &[u64],
    sheet: &mut [u8],
) -> Result<(u64, u64), Refusal>
    ensures { Decoded (spelled list.now) n rows.now offsets.now sheet.old result sheet.new }
{
    decode_listed(read_list(list), n, rows, offsets, sheet)
}
