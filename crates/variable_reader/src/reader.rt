// The count walk: what the field in front of a row is, how long it and its value are, or what is wrong with it. Total on
// any bytes; bytes are inverted back as they are read.
ghost use Rattle.std.specs.Prelude.{◌≡◌, true, ◌+◌, ◌-◌, ◌<◌, ◌≤◌, length, take, drop};
ghost use Rattle.format.specs.Limits.{max_slot};
ghost use Rattle.format.specs.Field.{directed};
ghost use Rattle.format.specs.Read.{field_read, from_bad, read_variable};
ghost use Rattle.variable_reader.specs.Counted.{blocks_read, counted, LastCounted};

use blocks::{BLOCK_CONTINUATION, EMPTY_SENTINEL, NON_EMPTY_SENTINEL, block_size};
use column_facts::null_lead;
use format::{FieldFault, FieldRead, MAX_SLOT, RowFault, SortOptions};
use number::{Word, directed};
use runs::byte_at;

// Whether the bytes from `from` up to `to` are zeros, inverted back: whole words, then the top bytes of the word that ends
// at `to`. It says no where that word would begin before the row. Places, here and below, and no part: that word may begin before it.
fn clear(row: &[u8], from: usize, to: usize, descending: bool) -> bool
    requires from_le_to { from ≤ to }
    requires to_in_bounds { to ≤ length row.now }
    ensures { result ≡ true → from_bad (take (to - from) (drop from (directed descending row.now))) ≡ 0 }
{
    for k in 0..(to - from) / 8 {
        let word = directed(descending, u64::low(row, from + 8 * k));
        if word != 0 {
            return false;
        }
    }
    let left = (to - from) % 8;
    if left == 0 {
        return true;
    }
    if to < 8 {
        return false;
    }
    let word = directed(descending, u64::low(row, to - 8));
    word >> (8 * (8 - left)) == 0
}

// How many bytes there are before `to` from the first that is not zero on, of those from `from` on.
fn unpadded(row: &[u8], from: usize, to: usize, descending: bool) -> usize
    requires from_le_to { from ≤ to }
    requires to_in_bounds { to ≤ length row.now }
    ensures { result ≡ from_bad (take (to - from) (drop from (directed descending row.now))) }
{
    if clear(row, from, to, descending) {
        return 0;
    }
    for i in from..to {
        let byte = byte_at(row, i, descending);
        if byte != 0 {
            return to - i;
        }
    }
    0
}

// A last block at a place, whose end byte says how many data bytes it has, with `count` bytes of the value before it.
// `count` is no length of a slice: the value's bytes stand in blocks, apart from each other.
pub fn last_block(
    row: &[u8],
    at: usize,
    size: usize,
    end: usize,
    count: usize,
    descending: bool,
) -> Result<FieldRead, FieldFault>
    requires size_in_bounds { at + size < length row.now }
    requires fact { end ≡ 255 → ⊥ }
    requires count_le_max_slot { count ≤ max_slot }
    ensures { LastCounted (directed descending row.now) (length row.now) at size end count result }
{
    let left = row.len() - at - size;
    if end < 1 {
        return Err(FieldFault(RowFault::EndByte, left));
    }
    if size < end {
        return Err(FieldFault(RowFault::EndByte, left));
    }
    let bad = unpadded(row, at + end, at + size, descending);
    if 0 < bad {
        return Err(FieldFault(RowFault::Padding, bad + left));
    }
    if MAX_SLOT < count + end {
        return Err(FieldFault(RowFault::TooLong, left));
    }
    Ok(FieldRead {
        length: at + size + 1,
        value: Some(count + end),
    })
}

// The blocks of a field, after its lead byte.
fn count_blocks(row: &[u8], descending: bool) -> Result<FieldRead, FieldFault>
    requires { 0 < length row.now }
    ensures { result ≡ counted (length row.now) 0 (blocks_read descending row.now) }
{
    let len = row.len();
    let mut at = 1;
    let mut k = 0;
    let mut count = 0;
    // No `for`: how many blocks there are only their end bytes tell.
    loop {
        let size = block_size(k);
        if len - at <= size {
            return Err(FieldFault(RowFault::Cut, 0));
        }
        let end = byte_at(row, at + size, descending);
        if end != BLOCK_CONTINUATION {
            return last_block(row, at, size, usize::from(end), count, descending);
        }
        if MAX_SLOT < count + size {
            return Err(FieldFault(RowFault::TooLong, len - at - size));
        }
        at += size + 1;
        k += 1;
        count += size;
    }
}

// The field in front of a row.
pub fn read(row: &[u8], options: SortOptions) -> Result<FieldRead, FieldFault>
    ensures { result ≡ field_read row.now (read_variable max_slot options row.now) }
{
    let descending = options.descending;
    let len = row.len();
    if len == 0 {
        return Err(FieldFault(RowFault::Cut, 0));
    }
    let lead = row[0];
    if null_lead(lead, options) {
        return Ok(FieldRead {
            length: 1,
            value: None,
        });
    }
    let byte = byte_at(row, 0, descending);
    if byte == EMPTY_SENTINEL {
        return Ok(FieldRead {
            length: 1,
            value: Some(0),
        });
    }
    if byte != NON_EMPTY_SENTINEL {
        return Err(FieldFault(RowFault::Lead, len));
    }
    count_blocks(row, descending)
}
