// The ends of a column of variable bytes: read, and checked row by row.
#![tactic(auto)]

ghost use Rattle.std.specs.Prelude.{◌≡◌, suc, ◌*◌, ◌<◌, ◌≤◌, length};
ghost use Rattle.format.specs.Limits.{max_rows};
ghost use Rattle.format.specs.Sheet.{end, ends_fault};
ghost use Rattle.sheet_ends.specs.Steps.{Steps};

use format::Refusal;
use number::Word;
use std::num::wrapping_sub_u64;

// End i of variable bytes: four bytes, low byte first.
pub fn end_at(part: &[u8], i: usize) -> usize
    requires { 4 * suc i ≤ length part.now }
    ensures { (result ≡ end part.now i) × (result < 4294967296) }
{
    u32::low(part, 4 * i) as usize
}

// How far the ends of n rows step beyond the limit, in sum: 0 where none falls and no slot is too long. No turn leaves the loop, so that
// the compiler can take several ends in one.
// Room for the ends, here and below: it is about a slice and a number, which no type says in plainer words.
fn ends_excess(part: &[u8], n: usize) -> u64
    requires n_le_max_rows { n ≤ max_rows }
    requires n_in_bounds { 4 * suc n ≤ length part.now }
    ensures { result ≡ 0 → Steps n part.now }
{
    let mut excess: u64 = 0;
    for row in 0..n {
        let last = end_at(part, row) as u64;
        let next = end_at(part, row + 1) as u64;
        excess += wrapping_sub_u64(next, last) >> 16;
    }
    excess
}

// The first fault of the ends of n rows, row by row: 9, 10.
fn find_ends_fault(part: &[u8], n: usize, c: usize) -> Result<(), Refusal>
    requires { 4 * suc n ≤ length part.now }
    ensures { result ≡ ends_fault c part.now 0 n }
{
    let mut last = end_at(part, 0);
    for row in 0..n {
        let next = end_at(part, row + 1);
        if next < last {
            return Err(Refusal::Ends(c, row));
        }
        if format::MAX_SLOT < next - last {
            return Err(Refusal::LongSlot(c, row));
        }
        last = next;
    }
    Ok(())
}

// The ends of n rows: 9, 10. Where something is wrong, it is looked for row by row.
pub fn check_ends(part: &[u8], n: usize, c: usize) -> Result<(), Refusal>
    requires n_le_max_rows { n ≤ max_rows }
    requires n_in_bounds { 4 * suc n ≤ length part.now }
    ensures { result ≡ ends_fault c part.now 0 n }
{
    if ends_excess(part, n) == 0 {
        return Ok(());
    }
    find_ends_fault(part, n, c)
}
