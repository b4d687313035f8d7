// Bits packed in bytes, least bit first: how many bytes, taken out and put in by shifts and masks, counted, looked at past
// the last row, and the first clear one found.
#![tactic(auto)]

ghost use Rattle.std.specs.Prelude.{◌≡◌, cond, ◌+◌, ◌-◌, ◌*◌, ◌/◌, ◌^◌, ◌<◌, ◌≤◌, length, take};
ghost use Rattle.format.specs.Limits.{max_rows};
ghost use Rattle.format.specs.Sheet.{packed as packedFor, bit as bit_of, spare_set, first_clear};
ghost use Rattle.bits.specs.Ones.{ones_in};

use number::Word;

// The bytes that the bits of n rows are packed in.
pub fn packed(n: usize) -> usize
    requires { n ≤ max_rows }
    ensures { (result ≡ packedFor n) × (result ≤ packedFor max_rows) }
{
    (n + 7) / 8
}

// The bit of row i: bit i mod 8 of byte i div 8.
pub fn bit(s: &[u8], i: usize) -> bool
    requires { i / 8 < length s.now }
    ensures { result ≡ bit_of s.now i }
{
    (s[i / 8] >> (i % 8)) & 1 == 1
}

// The byte b, of which k bits are put in, with bit k put in.
pub fn put_bit(b: u8, k: u8, on: bool) -> u8
    requires k_bound { k < 8 }
    requires b_bound { b < 2 ^ k }
    ensures { result ≡ b + cond on (2 ^ k) 0 }
{
    b | ((on as u8) << k)
}

// The ones of all bytes: at most eight for each.
pub fn count_ones(s: &[u8]) -> usize
    requires { length s.now ≤ packedFor max_rows }
    ensures value { result ≡ ones_in s.now }
    ensures upper_bound { result ≤ 8 * length s.now }
{
    let mut n: usize = 0;
    for byte in s {
        n += byte.count_ones() as usize;
    }
    n
}

// Whether a bit past row n is set in the packed bits of n rows: those bits are what is left of the last byte above its rows.
// Room for n bits, here and below: it is about a slice and a number, which no type says in plainer words.
pub fn spare(s: &[u8], n: usize) -> bool
    requires { packedFor n ≤ length s.now }
    ensures { result ≡ spare_set (take (packedFor n) s.now) n }
{
    let k = n % 8;
    if k == 0 {
        return false;
    }
    s[n / 8] >> k != 0
}

// A row up to which every bit of n rows is set, found by words of 64 rows that are all ones.
fn set_words(s: &[u8], n: usize) -> usize
    requires { packedFor n ≤ length s.now }
    ensures upper_bound { result ≤ n }
    ensures result_value { first_clear s.now result (n - result) ≡ first_clear s.now 0 n }
{
    let words = n / 64;
    for k in 0..words {
        if u64::low(s, 8 * k) != u64::MAX {
            return 64 * k;
        }
    }
    64 * words
}

// The first row of n whose bit is clear, or n: a word at a time, and then bit by bit in the word that has it or is the last.
pub fn first_clear(s: &[u8], n: usize) -> usize
    requires { packedFor n ≤ length s.now }
    ensures { result ≡ first_clear s.now 0 n }
{
    for row in set_words(s, n)..n {
        if !bit(s, row) {
            return row;
        }
    }
    n
}
