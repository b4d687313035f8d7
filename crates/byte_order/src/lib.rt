// Byte strings compared: unsigned bytes, a proper beginning first. A word of eight bytes at a time, high byte first, so that the
// first two words that differ decide; the last word ends where the shorter string does, and may begin within the one before it.
#![tactic(auto)]

ghost use Rattle.std.specs.Prelude.{◌≡◌, reverse, length, take, drop};
ghost use Prim.Native.Nat.{◌+◌, ◌≤◌};
ghost use Rattle.format.specs.Lists.{low_bytes};
ghost use Rattle.format.specs.Batch.{below as below·};
ghost use Rattle.format.specs.Order.{cmp};
ghost use Rattle.byte_order.specs.Answers.{ordering};

use number::{Coding, Word, encode};
use std::cmp::Ordering;

// The bytes of a word.
const WORD: usize = 8;

// The word at a place of s, high byte first.
fn word(s: &[u8], at: usize) -> u64
    requires { at + 8 ≤ length s.now }
    ensures { low_bytes 8 result ≡ reverse (take 8 (drop at s.now)) }
{
    encode(Coding::Unsigned, u64::low(s, at))
}

// A byte at a time.
fn compare_bytes(a: &[u8], b: &[u8]) -> Ordering
    ensures { result ≡ ordering (cmp a.now b.now) }
{
    for i in 0..a.len().min(b.len()) {
        let x = a[i];
        let y = b[i];
        if x != y {
            return x.cmp(&y);
        }
    }
    a.len().cmp(&b.len())
}

// A word at a time. By hand: of 20 equal bytes the library's `cmp` at slices takes 76 instructions and this 45, of 5 bytes 67 and 56.
// What is equal, the common case, costs one test each: with `then` and no `!=` before `cmp` it takes 56.
pub fn compare(a: &[u8], b: &[u8]) -> Ordering
    ensures { result ≡ ordering (cmp a.now b.now) }
{
    let n = a.len();
    let m = b.len();
    let k = n.min(m);
    if k < WORD {
        return compare_bytes(a, b);
    }
    let last = k - WORD;
    for i in (0..last).step_by(WORD) {
        let x = word(a, i);
        let y = word(b, i);
        if x != y {
            return x.cmp(&y);
        }
    }
    let x = word(a, last);
    let y = word(b, last);
    if x != y {
        return x.cmp(&y);
    }
    if n != m {
        return n.cmp(&m);
    }
    Ordering::Equal
}

// Whether a is below b.
pub fn below(a: &[u8], b: &[u8]) -> bool
    ensures { result ≡ below· a.now b.now }
{
    compare(a, b).is_lt()
}
