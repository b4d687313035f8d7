// Two rows of lent batches, compared where they lie.
#![tactic(auto)]

ghost use Rattle.std.specs.Prelude.{◌≡◌};
ghost use Rattle.format.specs.Batch.{below as below·};
ghost use Rattle.format.specs.Entries.{row_bytes};
ghost use Rattle.format.specs.Passed.{Lies};

use byte_order::below;

// Whether row r of one batch is below row q of another.
// `Lies`, here and above: it is about rows, offsets and a number together, which no type says in plainer words.
pub fn row_below(
    rows: &[u8],
    offsets: &[u64],
    r: usize,
    others: &[u8],
    ends: &[u64],
    q: usize,
) -> bool
    requires lies { Lies rows.now offsets.now r }
    requires lies_2 { Lies others.now ends.now q }
    ensures { result ≡ below· (row_bytes rows.now offsets.now r) (row_bytes others.now ends.now q) }
{
    let from = offsets[r] as usize;
    let to = offsets[r + 1] as usize;
    let start = ends[q] as usize;
    let end = ends[q + 1] as usize;
    below(&rows[from..to], &others[start..end])
}
