// A sheet encoded, and shown as text: into a lent buffer and not by `write!`, as crate `texts` says.
#![tactic(auto)]

ghost use Rattle.std.specs.Prelude.{◌≤◌, length};
ghost use Rattle.basics.specs.Wrote.{Wrote};
ghost use Rattle.format.specs.Described.{spelled};
ghost use Rattle.sheet_text.specs.SheetText.{text_room, sheet_text};

use texts::{put_refused, put_rows};

// The row buffer.
const ROW_ROOM: usize = 32768;

// A sheet encoded: its rows, or the refusal.
pub fn print_sheet(list: &[u8], n: u64, sheet: &[u8], out: &mut [u8]) -> usize
    requires { text_room ≤ length out.old }
    ensures { Wrote (sheet_text (spelled list.now) n sheet.now) 0 out.old out.new result }
{
    // Arrays: fixed memory, no heap.
    let mut rows = [0u8; ROW_ROOM];
    let mut offsets = [0u64; format::MAX_OFFSETS];
    let answer = station::encode::encode(list, n, sheet, &mut rows, &mut offsets);
    // No `?`: a refusal is printed here.
    if let Err(r) = answer {
        return put_refused(r, out);
    }
    put_rows(&rows, &offsets, n as usize, out)
}
