// A null, or a value of four short blocks or fewer, where the field in front of a row is one and good: most names are. It answers
// in two numbers, so that the walk over a batch asks here first; where it does not know, the count walk finds out what is wrong.
ghost use Rattle.std.specs.Prelude.{◌<◌, length};
ghost use Rattle.format.specs.Limits.{max_slot};
ghost use Rattle.format.specs.Read.{field_read, read_variable};
ghost use Rattle.variable_reader.specs.Counted.{Told, blocks_read, counted};

use crate::reader::last_block;
use blocks::{BLOCK_CONTINUATION, BLOCK_SIZE, EMPTY_SENTINEL, MINI_BLOCK_SIZE, NON_EMPTY_SENTINEL};
use column_facts::null_lead;
use format::{FieldFault, FieldRead, SortOptions};
use runs::byte_at;

// How many blocks are short.
const MINI_BLOCK_COUNT: usize = BLOCK_SIZE / MINI_BLOCK_SIZE;

// How long the field and its value are. A field of no bytes says nothing: two numbers come back in two registers, and an Option of them would be a
// third number in the hottest answer of decode.
#[derive(Clone, Copy)]
pub struct Short {
    pub field: usize,
    pub value: usize,
}

// An answer in two numbers.
fn lengths(answer: Result<FieldRead, FieldFault>) -> Short
    ensures { 0 < result.field → Told result.field result.value answer }
{
    match answer {
        Ok(read) => Short {
            field: read.length,
            value: read.value.unwrap_or(0),
        },
        Err(_) => Short { field: 0, value: 0 },
    }
}

// The short blocks of a field, after its lead byte.
fn short_blocks(row: &[u8], descending: bool) -> Short
    requires { 0 < length row.now }
    ensures { 0 < result.field → Told result.field result.value (counted (length row.now) 0 (blocks_read descending row.now)) }
{
    let len = row.len();
    for k in 0..MINI_BLOCK_COUNT {
        let at = 1 + k * (MINI_BLOCK_SIZE + 1);
        let count = k * MINI_BLOCK_SIZE;
        if len - at <= MINI_BLOCK_SIZE {
            return Short { field: 0, value: 0 };
        }
        let end = byte_at(row, at + MINI_BLOCK_SIZE, descending);
        if end != BLOCK_CONTINUATION {
            return lengths(last_block(
                row,
                at,
                MINI_BLOCK_SIZE,
                usize::from(end),
                count,
                descending,
            ));
        }
    }
    Short { field: 0, value: 0 }
}

// The field in front of a row; a null and an empty value are their lead byte.
pub fn read_short(row: &[u8], options: SortOptions) -> Short
    ensures { 0 < result.field → Told result.field result.value (field_read row.now (read_variable max_slot options row.now)) }
{
    let descending = options.descending;
    if row.len() == 0 {
        return Short { field: 0, value: 0 };
    }
    let lead = byte_at(row, 0, descending);
    if lead == NON_EMPTY_SENTINEL {
        return short_blocks(row, descending);
    }
    if null_lead(row[0], options) {
        return Short { field: 1, value: 0 };
    }
    if lead == EMPTY_SENTINEL {
        return Short { field: 1, value: 0 };
    }
    Short { field: 0, value: 0 }
}
