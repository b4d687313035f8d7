// Searches by halves over the rows of a sorted batch, compared where they lie.
#![tactic(auto)]

ghost use Rattle.std.specs.Prelude.{◌≡◌};
ghost use Rattle.format.specs.Passed.{Lies};
ghost use Rattle.format.specs.Entries.{row_bytes, cut_rows};
ghost use Rattle.joiner.specs.Rows.{Sorted};
ghost use Rattle.halves.specs.Turns.{front as front·, reached as reached·, passed as passed·, Tests, Rises, Turns, Finds};

use byte_order::below;

// The first row that begins with the key and one past the last; where none does, both are where the key would stand.
#[derive(Clone, Copy)]
pub struct Found {
    pub first: usize,
    pub past: usize,
}

// What a row has in front, up to the key's length: rows that begin with the key are above it, and their fronts are not.
fn front<'a>(key: &[u8], row: &'a [u8]) -> &'a [u8]
    ensures { result.now ≡ front· key.now row.now }
{
    &row[..row.len().min(key.len())]
}

// The first search's test: a row is not below the key.
fn reached(key: &[u8], row: &[u8]) -> bool
    ensures { result ≡ reached· key.now row.now }
{
    !below(front(key, row), key)
}

// The second's: it is past all that begin with the key.
fn passed(key: &[u8], row: &[u8]) -> bool
    ensures { result ≡ passed· key.now row.now }
{
    below(key, front(key, row))
}

// Row r.
fn row_at<'a>(rows: &'a [u8], offsets: &[u64], r: usize) -> &'a [u8]
    requires { Lies rows.now offsets.now r }
    ensures { result.now ≡ row_bytes rows.now offsets.now r }
{
    let from = offsets[r] as usize;
    let to = offsets[r + 1] as usize;
    &rows[from..to]
}

// The first of n rows that passes the test: rows before `low` fail it, and those from `high` on pass it.
fn search<T: Fn(&[u8]) -> bool>(passes: T, n: usize, rows: &[u8], offsets: &[u64]) -> usize
    requires callable { T.IsAlwaysCallable passes }
    requires sorted { Sorted 0 n rows.now offsets.now }
    ensures { (test : _) → Tests T.Fn passes test → Rises test → Turns test (cut_rows n rows.now offsets.now) result }
{
    let mut low = 0;
    let mut high = n;
    // A `while`: `partition_point` shows its test one element of a slice, and a row is cut out by two of the offsets.
    while low < high {
        let middle = low + (high - low) / 2;
        if passes(row_at(rows, offsets, middle)) {
            high = middle;
        } else {
            low = middle + 1;
        }
    }
    low
}

// The rows that begin with the key.
pub fn find(key: &[u8], n: usize, rows: &[u8], offsets: &[u64]) -> Found
    requires { Sorted 0 n rows.now offsets.now }
    ensures { Finds key.now (cut_rows n rows.now offsets.now) result }
{
    let first = search(|row| reached(key, row), n, rows, offsets);
    let past = search(|row| passed(key, row), n, rows, offsets);
    Found { first, past }
}
