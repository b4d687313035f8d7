// Numbers in a local array, lent to a call. The smallest array that will do is taken, so that a call clears no more, and each size has a frame of
// its own: up to 512 rows no call takes that of a larger one.
#![tactic(auto)]

ghost use Rattle.std.specs.Prelude.{◌≡◌, ◌+◌, ◌*◌, ◌≤◌, length};
ghost use Rattle.std.specs.Mem.{type_size};
ghost use Rattle.format.specs.Limits.{max_rows};

use format::{MAX_OFFSETS, MAX_ROWS};

// The most that a call uses: the offsets of two passes, and an entry for each of their rows.
const MOST: usize = 2 * MAX_OFFSETS + 2 * MAX_ROWS as usize;

// Runs the call with k of N numbers. Never inlined, since the optimiser would put the largest array into the frame of every caller.
#[inline(never)]
fn with_some_of<T: Copy + Default, R, const N: usize, F: FnMut(&mut [T]) -> R>(
    k: usize,
    run: &mut F,
) -> R
    requires width { type_size T.row ≤ 8 }
    requires size { N ≤ 4 * max_rows + 2 }
    requires k_in_bounds { k ≤ N }
    requires may_run { (numbers : _) → length numbers.now ≡ k → F.pre run.old numbers }
    ensures { (numbers : _) × (after : _) × (length numbers.now ≡ k) × F.step run.old numbers result after run.new }
{
    let mut numbers = [T::default(); N];
    run(&mut numbers[..k])
}

// Runs the call once, with k numbers that hold anything. The sizes are those of 8, 32, 64, 128, 256, 512, 2,048 and 4,096 rows, for the offsets of
// a batch or for what join takes; a const argument is a constant, so each has a line.
pub fn with_numbers<T: Copy + Default, R, F: FnMut(&mut [T]) -> R>(k: usize, run: &mut F) -> R
    requires width { type_size T.row ≤ 8 }
    requires few { k ≤ 4 * max_rows + 2 }
    requires may_run { (numbers : _) → length numbers.now ≡ k → F.pre run.old numbers }
    ensures { (numbers : _) × (after : _) × (length numbers.now ≡ k) × F.step run.old numbers result after run.new }
{
    if k <= 9 {
        return with_some_of::<T, R, 9, F>(k, run);
    }
    if k <= 34 {
        return with_some_of::<T, R, 34, F>(k, run);
    }
    if k <= 65 {
        return with_some_of::<T, R, 65, F>(k, run);
    }
    if k <= 130 {
        return with_some_of::<T, R, 130, F>(k, run);
    }
    if k <= 258 {
        return with_some_of::<T, R, 258, F>(k, run);
    }
    if k <= 514 {
        return with_some_of::<T, R, 514, F>(k, run);
    }
    if k <= 2050 {
        return with_some_of::<T, R, 2050, F>(k, run);
    }
    if k <= 4097 {
        return with_some_of::<T, R, 4097, F>(k, run);
    }
    if k <= 8194 {
        return with_some_of::<T, R, 8194, F>(k, run);
    }
    with_some_of::<T, R, MOST, F>(k, run)
}
