// Demand 2: what encode wrote decodes to the cleared sheet, and what decode wrote encodes to the same rows. Each function calls the real
// entries on lent buffers, and what it ensures is the demand itself. Neither asks anything of its caller. The theorems behind them stand in
// crate `demands`.
#![tactic(auto)]

ghost use Rattle.format.specs.Described.{spelled};
ghost use Rattle.demands.specs.RoundTrip.{CameBack, CameAgain};

use format::Refusal;
use station::decode::decode;
use station::encode::encode;

// Encodes the sheet, and decodes the rows into `back`: the cleared sheet of the same slots, with the same null total.
pub fn encode_decode(
    list: &[u8],
    n: u64,
    sheet: &[u8],
    rows: &mut [u8],
    offsets: &mut [u64],
    back: &mut [u8],
) -> Result<(u64, u64), Refusal>
    ensures { CameBack (spelled list.now) n sheet.now rows.old offsets.old back.old
        result back.new }
{
    encode(list, n, sheet, rows, offsets)?;
    decode(list, n, rows, offsets, back)
}

// Decodes the rows into `sheet`, and encodes what was written there: the same rows and offsets, with the same null total.
pub fn decode_encode(
    list: &[u8],
    n: u64,
    rows: &[u8],
    offsets: &[u64],
    sheet: &mut [u8],
    again: &mut [u8],
    ends: &mut [u64],
) -> Result<(u64, u64), Refusal>
    ensures { CameAgain (spelled list.now) n rows.now offsets.now sheet.old again.old ends.old
        result again.new ends.new }
{
    let (bytes, _) = decode(list, n, rows, offsets, sheet)?;
    encode(list, n, &sheet[..bytes as usize], again, ends)
}
