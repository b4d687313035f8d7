// Demand 3: comparing the bytes of two encoded rows compares their values.
ghost use Rattle.std.specs.Prelude.{◌≡◌};
ghost use Rattle.format.specs.Described.{spelled};
ghost use Rattle.format.specs.Entries.{row_bytes, compare_answer};
ghost use Rattle.format.specs.Passed.{Lies};
ghost use Rattle.demands.specs.Order.{batch, OrderedAs};

use format::Refusal;
use station::compare::compare;
use station::encode::encode;

// Compares row r of one batch with row q of another, each cut out by its offsets.
fn compare_rows(
    rows: &[u8],
    offsets: &[u64],
    r: usize,
    others: &[u8],
    ends: &[u64],
    q: usize,
) -> i32
    requires lies { Lies rows.now offsets.now r }
    requires lies_2 { Lies others.now ends.now q }
    ensures { result ≡ compare_answer (row_bytes rows.now offsets.now r) (row_bytes others.now ends.now q) }
{
    let from = offsets[r] as usize;
    let to = offsets[r + 1] as usize;
    let start = ends[q] as usize;
    let end = ends[q + 1] as usize;
    compare(&rows[from..to], &others[start..end])
}

// Encodes two sheets under one list, and compares row r of the first with row q of the second.
pub fn encode_compare(
    list: &[u8],
    n: u64,
    sheet: &[u8],
    rows: &mut [u8],
    offsets: &mut [u64],
    r: u64,
    m: u64,
    other: &[u8],
    others: &mut [u8],
    ends: &mut [u64],
    q: u64,
) -> Result<Option<i32>, Refusal>
    ensures { OrderedAs (spelled list.now)
        (batch n sheet.now rows.old offsets.old rows.new offsets.new)
        (batch m other.now others.old ends.old others.new ends.new)
        r q result }
{
    encode(list, n, sheet, rows, offsets)?;
    encode(list, m, other, others, ends)?;
    if n <= r {
        return Ok(None);
    }
    if m <= q {
        return Ok(None);
    }
    Ok(Some(compare_rows(rows, offsets, r as usize, others, ends, q as usize)))
}
