// All rows of one plate: the first k fields of encoded rows.
ghost use Rattle.std.specs.Prelude.{◌≡◌, ◌≤◌, length, take};
ghost use Rattle.format.specs.Described.{spelled};
ghost use Rattle.format.specs.Entries.{row_bytes, compare_answer};
ghost use Rattle.format.specs.Passed.{Lies};
ghost use Rattle.demands.specs.Order.{batch};
ghost use Rattle.plates.specs.Prefix.{FieldsAgree, front_end, KeyOrdered};

use format::Refusal;
use station::compare::compare;
use station::encode::encode;

// Encodes two sheets under one list: their rows share the first k fields exactly where the sheets share the first k values.
pub fn encode_agree(
    list: &[u8],
    n: u64,
    sheet: &[u8],
    rows: &mut [u8],
    offsets: &mut [u64],
    m: u64,
    other: &[u8],
    others: &mut [u8],
    ends: &mut [u64],
) -> Result<(), Refusal>
    ensures { FieldsAgree (spelled list.now)
        (batch n sheet.now rows.old offsets.old rows.new offsets.new)
        (batch m other.now others.old ends.old others.new ends.new)
        result }
{
    encode(list, n, sheet, rows, offsets)?;
    encode(list, m, other, others, ends)?;
    Ok(())
}

// Where what stands from `from` up to `to` ends if it is cut to `size`.
fn front_end(from: usize, to: usize, size: usize) -> usize
    requires { from ≤ to }
    ensures { result ≡ front_end from to size }
{
    if size < to - from {
        return from + size;
    }
    to
}

// Compares row r of one batch, cut to the length of row q of another, with that row.
fn compare_front(rows: &[u8], offsets: &[u64], r: usize, keys: &[u8], ends: &[u64], q: usize) -> i32
    requires lies { Lies rows.now offsets.now r }
    requires lies_2 { Lies keys.now ends.now q }
    ensures { result ≡ compare_answer
        (take (length (row_bytes keys.now ends.now q)) (row_bytes rows.now offsets.now r))
        (row_bytes keys.now ends.now q) }
{
    let from = offsets[r] as usize;
    let to = offsets[r + 1] as usize;
    let start = ends[q] as usize;
    let end = ends[q + 1] as usize;
    let cut = front_end(from, to, end - start);
    compare(&rows[from..cut], &keys[start..end])
}

// Encodes a sheet under a list, and keys under another: where that has the list's first k columns, how the first k values of row r
// stand to key q.
pub fn encode_key(
    list: &[u8],
    n: u64,
    sheet: &[u8],
    rows: &mut [u8],
    offsets: &mut [u64],
    r: u64,
    short: &[u8],
    m: u64,
    other: &[u8],
    keys: &mut [u8],
    ends: &mut [u64],
    q: u64,
) -> Result<Option<i32>, Refusal>
    ensures { KeyOrdered (spelled list.now) (spelled short.now)
        (batch n sheet.now rows.old offsets.old rows.new offsets.new)
        (batch m other.now keys.old ends.old keys.new ends.new)
        r q result }
{
    encode(list, n, sheet, rows, offsets)?;
    encode(short, m, other, keys, ends)?;
    if n <= r {
        return Ok(None);
    }
    if m <= q {
        return Ok(None);
    }
    Ok(Some(compare_front(rows, offsets, r as usize, keys, ends, q as usize)))
}
