// The writing walk of decode: rows that passed the checks into the cleared sheet, column by column. A cursor for each row
// stands where the row's next field starts; each column is written from the fields at the cursors, which then move past
// them. Every part of a column is appended at a place of the sheet, and the place after it is returned. The ones of the
// validity that was written give the null total.
#![tactic(auto)]

mod columns;

pub use columns::write_sheet;

// The sheet that was written: its bytes, and its null slots.
#[derive(Clone, Copy)]
pub struct Written {
    pub bytes: usize,
    pub nulls: u64,
}
