// A slot into its field, from a place of the row buffer on. Each writer returns the place after what it wrote.
ghost use Rattle.std.specs.Prelude.{◌≡◌, ◌+◌, ◌-◌, ◌%◌, ◌<◌, ◌≤◌, length, take, drop};
ghost use Rattle.std.proofs.Math.Option.{none, some};
ghost use Rattle.std.proofs.lemmas.List.Edits.{sets};
ghost use Rattle.format.specs.Lists.{low};
ghost use Rattle.format.specs.Field.{block, directed, padded_length, variable_field};
ghost use Rattle.basics.specs.Wrote.{Wrote};
ghost use Rattle.variable_writer.specs.Even.{data_blocks, even_blocks};

use blocks::{
    BLOCK_CONTINUATION, BLOCK_SIZE, EMPTY_SENTINEL, MINI_BLOCK_COUNT, MINI_BLOCK_SIZE,
    NON_EMPTY_SENTINEL,
};
use column_facts::null_sentinel;
use format::SortOptions;
use number::{Word, directed};
use runs::{copy_words, put_byte};

// Null: the null byte, which descending does not invert.
pub fn encode_null(out: &mut [u8], at: usize, options: SortOptions) -> usize
    requires { at < length out.old }
    ensures { Wrote (variable_field options none) at out.old out.new result }
{
    put_byte(out, at, null_sentinel(options), false);
    at + 1
}

// The bytes of val from a place to its end, eight at most, as a number, low byte first: the top bytes of the word that
// ends there, which may start before the place.
// The bounds of `val`, here and below: they are about a slice and a place, which no type says in plainer words.
fn last_word(val: &[u8], from: usize) -> u64
    requires in_bounds { 8 ≤ length val.now }
    requires from_in_bounds { from < length val.now }
    requires val_len_bound { length val.now ≤ from + 8 }
    ensures { result ≡ low (drop from val.now) }
{
    let len = val.len();
    u64::low(val, len - 8) >> (8 * (8 - (len - from)))
}

// The eight bytes of val at a place, as a number, low byte first; zeros stand for those past its end.
fn word_at(val: &[u8], from: usize) -> u64
    requires in_bounds { 8 ≤ length val.now }
    requires from_in_bounds { from < length val.now }
    ensures { result ≡ low (take 8 (drop from val.now)) }
{
    if val.len() - from <= 8 {
        return last_word(val, from);
    }
    u64::low(val, from)
}

// The same at any place.
fn padded_word(val: &[u8], from: usize) -> u64
    requires { 8 ≤ length val.now }
    ensures { result ≡ low (take 8 (drop from val.now)) }
{
    if val.len() <= from {
        return 0;
    }
    word_at(val, from)
}

// A block that more follow: all of it is data, and FF ends it.
fn encode_full(out: &mut [u8], at: usize, val: &[u8], from: usize, size: usize, descending: bool)
    requires size_value { size % 8 ≡ 0 }
    requires size_in_bounds { from + size ≤ length val.now }
    requires size_in_bounds_2 { at + size < length out.old }
    ensures { out.new ≡ sets out.old at (directed descending (block size (take size (drop from val.now)) 255)) }
{
    copy_words(&mut out[at..at + size], &val[from..from + size], descending);
    put_byte(out, at + size, BLOCK_CONTINUATION, descending);
}

// The last block: the bytes of val from a place on, zeros up to its size, and their count. Word by word, so that padding
// is written with the data; there are data in the first.
fn encode_last(out: &mut [u8], at: usize, val: &[u8], from: usize, size: usize, descending: bool)
    requires size_nonzero { (0 < size) × (size < 255) × (size % 8 ≡ 0) }
    requires in_bounds { 8 ≤ length val.now }
    requires from_in_bounds { (from < length val.now) × (length val.now ≤ from + size) }
    requires size_in_bounds { at + size < length out.old }
    ensures { out.new ≡ sets out.old at
        (directed descending (block size (drop from val.now) (length val.now - from))) }
{
    let len = val.len();
    let first = word_at(val, from);
    directed(descending, first).put(out, at);
    for k in 1..size / 8 {
        let word = padded_word(val, from + 8 * k);
        directed(descending, word).put(out, at + 8 * k);
    }
    put_byte(out, at + size, (len - from) as u8, descending);
}

// The blocks of val from a place on, each of `size` bytes: FF ends all but the last, and the count of its data bytes ends
// that.
fn encode_blocks(
    out: &mut [u8],
    at: usize,
    val: &[u8],
    from: usize,
    size: usize,
    descending: bool,
) -> usize
    requires size_nonzero { (0 < size) × (size < 255) × (size % 8 ≡ 0) }
    requires in_bounds { 8 ≤ length val.now }
    requires from_in_bounds { from < length val.now }
    requires val_in_bounds { at + length (even_blocks size (drop from val.now)) ≤ length out.old }
    ensures { Wrote (directed descending (even_blocks size (drop from val.now))) at out.old out.new result }
{
    let len = val.len();
    let mut place = at;
    let mut i = from;
    // No `for`: a turn takes a block, and what is left after the full ones is the last.
    while size < len - i {
        encode_full(out, place, val, i, size, descending);
        place += size + 1;
        i += size;
    }
    encode_last(out, place, val, i, size, descending);
    place + size + 1
}

// The blocks of the value that val holds from a place on: the first four in a turn each, then the later ones.
fn encode_data(out: &mut [u8], at: usize, val: &[u8], from: usize, descending: bool) -> usize
    requires in_bounds { 8 ≤ length val.now }
    requires from_in_bounds { from < length val.now }
    requires val_in_bounds { at + length (data_blocks (drop from val.now)) ≤ length out.old }
    ensures { Wrote (directed descending (data_blocks (drop from val.now))) at out.old out.new result }
{
    let len = val.len();
    for k in 0..MINI_BLOCK_COUNT {
        let place = at + k * (MINI_BLOCK_SIZE + 1);
        let i = from + k * MINI_BLOCK_SIZE;
        if len - i <= MINI_BLOCK_SIZE {
            encode_last(out, place, val, i, MINI_BLOCK_SIZE, descending);
            return place + MINI_BLOCK_SIZE + 1;
        }
        encode_full(out, place, val, i, MINI_BLOCK_SIZE, descending);
    }
    let place = at + MINI_BLOCK_COUNT * (MINI_BLOCK_SIZE + 1);
    let i = from + MINI_BLOCK_COUNT * MINI_BLOCK_SIZE;
    encode_blocks(out, place, val, i, BLOCK_SIZE, descending)
}

// The value that val holds from a place on; what stands before it is not part of it, and lets its last bytes be read as a
// word. Empty is 01. Otherwise 02, then blocks: the first four hold 8 bytes, all later ones 32.
//
//     ""           01
//     "a"          02 | 61 00 00 00 00 00 00 00 01
//     9 bytes      02 | 8 bytes FF | 1 byte, 00 x7, 01
//     32 bytes     02 | 8 bytes FF | 8 bytes FF | 8 bytes FF | 8 bytes 08
//     33 bytes     02 | 8 bytes FF | 8 bytes FF | 8 bytes FF | 8 bytes FF | 1 byte, 00 x31, 01
//
// Descending inverts every byte of it.
pub fn encode_one(out: &mut [u8], at: usize, val: &[u8], from: usize, options: SortOptions) -> usize
    requires in_bounds { 8 ≤ length val.now }
    requires from_in_bounds { from ≤ length val.now }
    requires val_in_bounds { at + padded_length (length (drop from val.now)) ≤ length out.old }
    ensures { Wrote (variable_field options (some (drop from val.now))) at out.old out.new result }
{
    let descending = options.descending;
    if from == val.len() {
        put_byte(out, at, EMPTY_SENTINEL, descending);
        return at + 1;
    }
    put_byte(out, at, NON_EMPTY_SENTINEL, descending);
    encode_data(out, at + 1, val, from, descending)
}
