// Encode's writing walk: the rows of a checked sheet, and the offsets between them. The offsets first hold where each row begins; the
// rows are then written side by side, and each offset moves on to its row's end.
#![tactic(auto)]

ghost use Rattle.std.specs.Prelude.{◌≡◌, ◌<◌, ◌≤◌, length};
ghost use Rattle.std.proofs.lemmas.List.Edits.{sets};
ghost use Rattle.format.specs.Limits.{max_rows};
ghost use Rattle.format.specs.Lists.{joined, ends_from};
ghost use Rattle.format.specs.Entries.{sheet_rows, sheet_total};
ghost use Rattle.sheet_reader.specs.Sheets.{columns_of, Known};

use crate::chunks::write_chunks;
use crate::starts::write_starts;
use sheet_reader::sheet::Facts;

mod chunks;
mod starts;

// The rows of a sheet whose columns are known by their facts, and the offsets: where each row begins, and the last one's end.
pub fn write_rows(n: usize, sheet: &[u8], facts: &[Facts], rows: &mut [u8], offsets: &mut [u64])
    requires n_le_max_rows { n ≤ max_rows }
    requires known { Known n (columns_of facts.now) sheet.now facts.now }
    requires sheet_in_bounds { sheet_total n (columns_of facts.now) sheet.now ≤ length rows.old }
    requires n_in_bounds { n < length offsets.old }
    ensures rows_after { rows.new ≡ sets rows.old 0 (joined (sheet_rows n (columns_of facts.now) sheet.now)) }
    ensures offsets_after { offsets.new ≡ sets offsets.old 0 (ends_from 0 (sheet_rows n (columns_of facts.now) sheet.now)) }
{
    offsets[0] = 0;
    if n == 0 {
        return;
    }
    write_starts(n, sheet, facts, offsets);
    write_chunks(n, sheet, facts, rows, offsets);
}
