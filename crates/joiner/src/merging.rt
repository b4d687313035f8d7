// Two sorted passes merged: the order of their rows, a number a row.
ghost use Rattle.std.specs.Prelude.{◌≡◌};
ghost use Rattle.format.specs.Passed.{Cuts};
ghost use Rattle.format.specs.Lists.{over};
ghost use Rattle.format.specs.Entries.{row_bytes, cut_rows};
ghost use Rattle.format.specs.Join.{join_order};
ghost use Rattle.joiner.specs.Rows.{Joinable, second_next};

use format::MAX_ROWS;
use row_order::row_below;

// Whether the next row of the order is row j of pass 1: it is where it is below row i of pass 0, and where only pass 1 has rows left.
fn second_next(
    n: usize,
    rows: &[u8],
    offsets: &[u64],
    i: usize,
    m: usize,
    others: &[u8],
    ends: &[u64],
    j: usize,
) -> bool
    requires cuts { Cuts n rows.now offsets.now }
    requires cuts_2 { Cuts m others.now ends.now }
    ensures { result ≡ second_next n (row_bytes rows.now offsets.now) i m (row_bytes others.now ends.now) j }
{
    if m <= j {
        return false;
    }
    if n <= i {
        return true;
    }
    row_below(others, ends, j, rows, offsets, i)
}

// The order of n rows of pass 0 and m of pass 1, in front of the list.
pub fn merge(
    n: usize,
    rows: &[u8],
    offsets: &[u64],
    m: usize,
    others: &[u8],
    ends: &[u64],
    order: &mut [u64],
)
    requires { Joinable n rows.now offsets.now m others.now ends.now order.old }
    ensures { order.new ≡ over (join_order (cut_rows n rows.now offsets.now)
        (cut_rows m others.now ends.now)) order.old }
{
    let mut i = 0;
    let mut j = 0;
    for place in 0..n + m {
        if second_next(n, rows, offsets, i, m, others, ends, j) {
            order[place] = MAX_ROWS + j as u64;
            j += 1;
        } else {
            order[place] = i as u64;
            i += 1;
        }
    }
}
