// The copying walk: the value of a field that the count walk passed, into the sheet.
ghost use Rattle.std.specs.Prelude.{◌≡◌, ◌+◌, ◌-◌, ◌<◌, ◌≤◌, length};
ghost use Rattle.std.proofs.lemmas.List.Edits.{sets};
ghost use Rattle.format.specs.Field.{directed};
ghost use Rattle.format.specs.Limits.{max_slot};
ghost use Rattle.format.specs.Read.{Good, left_after, read_variable, slot_read};
ghost use Rattle.format.specs.Cleared.{variable_slot};
ghost use Rattle.variable_reader.specs.Counted.{blocks_read, rest_of, value_of};

use blocks::{BLOCK_CONTINUATION, NON_EMPTY_SENTINEL, block_size};
use format::SortOptions;
use number::{Word, directed};
use runs::{byte_at, copy_words, put_byte};

// How long the field was, and how many bytes were written.
#[derive(Clone, Copy)]
pub struct Copied {
    pub field: usize,
    pub value: usize,
}

// As many bytes as a number has, to twice as many: two numbers, which overlap.
fn copy_two<W: Word>(out: &mut [u8], src: &[u8], descending: bool)
    requires two { (W.SIZE ≤ length src.now) × (length src.now ≤ W.SIZE + W.SIZE) }
    requires room { length out.old ≡ length src.now }
    ensures { out.new ≡ directed descending src.now }
{
    let rest = src.len() - W::SIZE;
    directed(descending, W::low(src, 0)).put(out, 0);
    let last = W::low(src, rest);
    directed(descending, last).put(out, rest);
}

// Fewer bytes than a word has.
fn copy_few(out: &mut [u8], src: &[u8], descending: bool)
    requires few { length src.now < 8 }
    requires room { length out.old ≡ length src.now }
    ensures { out.new ≡ directed descending src.now }
{
    if src.len() >= 4 {
        copy_two::<u32>(out, src, descending);
    } else if src.len() >= 2 {
        copy_two::<u16>(out, src, descending);
    } else if src.len() > 0 {
        put_byte(out, 0, src[0], descending);
    }
}

// The data of a last block: words, and the word that ends with it, which overlaps them.
fn copy_last(out: &mut [u8], src: &[u8], descending: bool)
    requires { length out.old ≡ length src.now }
    ensures { out.new ≡ directed descending src.now }
{
    let count = src.len();
    if count < 8 {
        copy_few(out, src, descending);
        return;
    }
    let words = count - count % 8;
    copy_words(&mut out[..words], &src[..words], descending);
    let last = u64::low(src, count - 8);
    directed(descending, last).put(out, count - 8);
}

// The data of the blocks of a field, after its lead byte.
fn copy_blocks(row: &[u8], descending: bool, out: &mut [u8], at: usize) -> Copied
    requires good { Good (blocks_read descending row.now) }
    requires row_in_bounds { at + length (value_of (blocks_read descending row.now)) ≤ length out.old }
    ensures field_value { result.field ≡ length row.now - length (rest_of (blocks_read descending row.now)) }
    ensures value_value { result.value ≡ length (value_of (blocks_read descending row.now)) }
    ensures out_after { out.new ≡ sets out.old at (value_of (blocks_read descending row.now)) }
{
    let mut from = 1;
    let mut k = 0;
    let mut count = 0;
    // No `for`: how many blocks there are only their end bytes tell.
    loop {
        let size = block_size(k);
        let end = byte_at(row, from + size, descending);
        if end != BLOCK_CONTINUATION {
            let used = usize::from(end);
            let place = at + count;
            copy_last(
                &mut out[place..place + used],
                &row[from..from + used],
                descending,
            );
            return Copied {
                field: from + size + 1,
                value: count + used,
            };
        }
        let place = at + count;
        copy_words(
            &mut out[place..place + size],
            &row[from..from + size],
            descending,
        );
        from += size + 1;
        k += 1;
        count += size;
    }
}

// The value of the field in front of a row; nothing for null or empty, which are the lead byte alone.
pub fn decode_blocks(row: &[u8], options: SortOptions, out: &mut [u8], at: usize) -> Copied
    requires good { Good (read_variable max_slot options row.now) }
    requires row_in_bounds { at + length (variable_slot (slot_read (read_variable max_slot options row.now))) ≤ length out.old }
    ensures field_value { result.field ≡ length row.now - length (left_after (read_variable max_slot options row.now)) }
    ensures value_value { result.value ≡ length (variable_slot (slot_read (read_variable max_slot options row.now))) }
    ensures out_after { out.new ≡ sets out.old at (variable_slot (slot_read (read_variable max_slot options row.now))) }
{
    let descending = options.descending;
    let lead = byte_at(row, 0, descending);
    if lead != NON_EMPTY_SENTINEL {
        return Copied { field: 1, value: 0 };
    }
    copy_blocks(row, descending, out, at)
}
