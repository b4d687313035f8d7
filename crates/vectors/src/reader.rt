// Cases as text: lines of words with a space between them. A word is bytes in hex, `-` for none, or decimal numbers with commas
// between them.
ghost use Rattle.std.specs.Prelude.{◌≤◌, length, IfSome};

// The place of the first such byte from a place on, or the length.
pub fn place(text: &[u8], from: usize, byte: u8) -> usize
    requires { from ≤ length text.now }
    ensures { (from ≤ result) × (result ≤ length text.now) }
{
    for i in from..text.len() {
        if text[i] == byte {
            return i;
        }
    }
    text.len()
}

// Where the word after the one at a place begins.
fn next(line: &[u8], at: usize) -> usize
    requires { at ≤ length line.now }
    ensures { result ≤ length line.now }
{
    let end = place(line, at, b' ');
    if end < line.len() {
        return end + 1;
    }
    end
}

// Where word k begins, counted from 0.
fn start(line: &[u8], k: usize) -> usize
    ensures { result ≤ length line.now }
{
    let mut at = 0;
    for _ in 0..k {
        at = next(line, at);
    }
    at
}

// Word k of a line; empty where there is none.
pub fn word(line: &[u8], k: usize) -> &[u8] {
    let at = start(line, k);
    let end = place(line, at, b' ');
    &line[at..end]
}

// The value of a hex digit in lower case. No `char::to_digit`: it takes capital letters too.
fn digit(byte: u8) -> Option<u8> {
    match byte {
        b'0'..=b'9' => Some(byte - b'0'),
        b'a'..=b'f' => Some(byte - 87),
        _ => None,
    }
}

// The bytes of a word, put in front of `out`, and how many they are; none where the word is no such thing or has more than fit.
pub fn read_hex(word: &[u8], out: &mut [u8]) -> Option<usize>
    ensures { IfSome result (λ k. k ≤ length out.new) }
{
    if word == b"-".as_slice() {
        return Some(0);
    }
    let k = word.len() / 2;
    if k == 0 || word.len() % 2 == 1 || out.len() < k {
        return None;
    }
    for i in 0..k {
        let high = digit(word[2 * i])?;
        let low = digit(word[2 * i + 1])?;
        out[i] = high << 4 | low;
    }
    Some(k)
}

// A number with one more decimal digit; the largest where that is too large.
fn with_digit(number: u64, digit: u64) -> u64 {
    number.saturating_mul(10).saturating_add(digit)
}

// The numbers of a word, put in front of `out`, which holds zeros, and how many they are; none where the word is no such thing or
// has more than fit.
pub fn read_numbers(word: &[u8], out: &mut [u64]) -> Option<usize>
    ensures { IfSome result (λ k. k ≤ length out.new) }
{
    if word.is_empty() {
        return Some(0);
    }
    let mut k = 0;
    for &byte in word {
        if out.len() <= k {
            return None;
        }
        if byte == b',' {
            k += 1;
        } else {
            let d = digit(byte)?;
            if 9 < d {
                return None;
            }
            out[k] = with_digit(out[k], u64::from(d));
        }
    }
    if k < out.len() { Some(k + 1) } else { None }
}
