// Runs of bytes in memory: zeros, bytes copied a word at a time, and single bytes. Descending inverts what is copied, written
// or read.
#![tactic(auto)]

ghost use Rattle.std.specs.Prelude.{◌≡◌, [], ◌∷◌, ◌%◌, ◌<◌, length, get_or};
ghost use Rattle.std.proofs.lemmas.List.Edits.{sets};
ghost use Rattle.format.specs.Field.{directed};

use number::{Word, directed};

// One byte, written at a place.
pub fn put_byte(out: &mut [u8], at: usize, byte: u8, descending: bool)
    requires { at < length out.old }
    ensures { out.new ≡ sets out.old at (directed descending (byte ∷ [])) }
{
    out[at] = directed(descending, byte);
}

// The byte of a row at a place, inverted back.
pub fn byte_at(row: &[u8], i: usize, descending: bool) -> u8
    requires { i < length row.now }
    ensures { result ≡ get_or (directed descending row.now) i 0 }
{
    directed(descending, row[i])
}

// The bytes of src into a part of a buffer that is as long, whole words: of a value into a row, or of a row back into the sheet.
// `length out.old ≡ length src.now`, here and above: it is about two slices, which no type says in plainer words.
pub fn copy_words(out: &mut [u8], src: &[u8], descending: bool)
    requires words { length src.now % 8 ≡ 0 }
    requires room { length out.old ≡ length src.now }
    ensures { out.new ≡ directed descending src.now }
{
    let mut i = 0;
    // To do: a `for`, measured by itself: with one decode of names missed its count, but three loops of `variable_reader` changed in the same run.
    while i < src.len() {
        let word = u64::low(src, i);
        directed(descending, word).put(out, i);
        i += 8;
    }
}

// The same, a byte at a time.
fn copy_rest(out: &mut [u8], src: &[u8], descending: bool)
    requires { length out.old ≡ length src.now }
    ensures { out.new ≡ directed descending src.now }
{
    for i in 0..src.len() {
        out[i] = byte_at(src, i, descending);
    }
}

// The same of any count: words, then the rest.
pub fn copy_bytes(out: &mut [u8], src: &[u8], descending: bool)
    requires { length out.old ≡ length src.now }
    ensures { out.new ≡ directed descending src.now }
{
    let words = src.len() - src.len() % 8;
    copy_words(&mut out[..words], &src[..words], descending);
    copy_rest(&mut out[words..], &src[words..], descending);
}
