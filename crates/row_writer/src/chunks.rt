// The rows at their starts: some rows at a time, column by column.
ghost use Rattle.std.specs.Prelude.{◌≡◌, ◌+◌, ◌<◌, ◌≤◌, length, min};
ghost use Rattle.format.specs.Limits.{max_rows};
ghost use Rattle.chunk_writer.specs.Cursors.{WroteEach};
ghost use Rattle.row_writer.specs.Rows.{AllStand, row_at, rows_total};
ghost use Rattle.row_writer.specs.Starts.{AtStarts};

use chunk_writer::write_column;
use sheet_reader::sheet::Facts;

// The rows of a chunk: their part of the buffer and of each column stays near while it is written.
const CHUNK: usize = 64;

// The row after the chunk that begins with `from`.
fn chunk_end(from: usize, n: usize) -> usize
    requires { from < n }
    ensures { result ≡ min (from + 64) n }
{
    if n - from < CHUNK {
        return n;
    }
    from + CHUNK
}

// Every row at its cursor, which moves to the row's end.
pub fn write_chunks(n: usize, sheet: &[u8], facts: &[Facts], rows: &mut [u8], offsets: &mut [u64])
    requires n_le_max_rows { (n ≤ max_rows) × (n < length offsets.old) }
    requires all_stand { AllStand n sheet.now facts.now }
    requires total_in_bounds { rows_total n sheet.now facts.now ≤ length rows.old }
    requires at_starts { AtStarts (row_at n sheet.now facts.now) n offsets.old }
    ensures { WroteEach (row_at n sheet.now facts.now) 0 n rows.old offsets.old
        rows.new offsets.new }
{
    for from in (0..n).step_by(CHUNK) {
        let to = chunk_end(from, n);
        for f in facts {
            write_column(f.column, n, &sheet[f.base..], from, to, rows, offsets);
        }
    }
}
