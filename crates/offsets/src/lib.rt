// The offsets of a batch.
#![tactic(auto)]

ghost use Rattle.std.specs.Prelude.{◌≡◌, ◌≤◌};
ghost use Rattle.format.specs.Limits.{max_rows};
ghost use Rattle.format.specs.Entries.{offsets_fault};

use format::{MAX_TOTAL, Refusal};

// 14, 15 (first, falling in order, last), 12: the first of these that the offsets break.
// `n ≤ max_rows`, here and above: docs/ name check_offsets, check_fields, check_column and others, which so take no narrower type.
pub fn check_offsets(n: usize, rows: &[u8], offsets: &[u64]) -> Result<(), Refusal>
    requires { n ≤ max_rows }
    ensures { result ≡ offsets_fault n rows.now offsets.now }
{
    if offsets.len() < n + 1 {
        return Err(Refusal::OffsetRoom((n + 1) as u64));
    }
    if offsets[0] != 0 {
        return Err(Refusal::Offsets(0));
    }
    for i in 0..n {
        if offsets[i + 1] < offsets[i] {
            return Err(Refusal::Offsets(i + 1));
        }
    }
    let last = offsets[n];
    if (rows.len() as u64) < last {
        return Err(Refusal::Offsets(n));
    }
    if MAX_TOTAL < last {
        return Err(Refusal::ManyBytes(last, 0));
    }
    Ok(())
}
