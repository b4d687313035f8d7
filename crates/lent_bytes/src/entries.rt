// The entries of the joined order in lent bytes, eight bytes an entry.
ghost use Rattle.std.specs.Prelude.{◌/◌};
ghost use Rattle.lent_bytes.specs.Entries.{UsedEntries};

use format::MAX_ROWS;

// How many of the entries in so many lent bytes two passes use: one a row, or all if there are fewer, and none of too many rows.
pub fn used_entries(n0: u64, n1: u64, bytes: usize) -> usize
    ensures { UsedEntries n0 n1 (bytes / 8) result }
{
    if MAX_ROWS < n0 {
        return 0;
    }
    if MAX_ROWS < n1 {
        return 0;
    }
    let count = n0 + n1;
    let room = bytes / 8;
    if (room as u64) < count {
        return room;
    }
    count as usize
}
