// Measuring: how many bytes the rows of a sheet take, under a list that was read, however it came.
#![tactic(auto)]

ghost use Rattle.format.specs.Promises.{Measured};
ghost use Rattle.list_reader.specs.Listing.{OfList, OfEach};
ghost use Rattle.measurer.specs.Measuring.{Measures};

use checks::{begin, total_fault};
use format::{Refusal, Schema};
use sheet_measurer::measure_sheet;
use sheet_reader::sheet::{Sheeted, check_sheet};

// What is known of a batch that is not refused: its columns, what its sheet was found to be, and the total.
#[derive(Clone, Copy)]
pub struct Measuring {
    pub schema: Schema,
    pub sheeted: Sheeted,
    pub total: u64,
}

// List, 6, sheet; and the total, of which 12 is not asked here. Always inlined: what a caller does not take of it is neither cleared nor copied.
// To do: `OfList`, here and above, in a type of lists that were read.
#[inline(always)]
pub fn measure_batch(
    listed: Result<Schema, Refusal>,
    n: u64,
    sheet: &[u8],
) -> Result<Measuring, Refusal>
    requires { OfList listed }
    ensures { OfEach listed (λ list. Measures list n sheet.now result) }
{
    let schema = begin(listed, n)?;
    let sheeted = check_sheet(schema, n as usize, sheet)?;
    let total = measure_sheet(n as usize, sheet, &sheeted.facts[..schema.count]);
    Ok(Measuring {
        schema,
        sheeted,
        total,
    })
}

// Total row bytes and the null total, or the refusal.
pub fn measure_listed(
    listed: Result<Schema, Refusal>,
    n: u64,
    sheet: &[u8],
) -> Result<(u64, u64), Refusal>
    requires { OfList listed }
    ensures { OfEach listed (λ list. Measured list n sheet.now result) }
{
    let m = measure_batch(listed, n, sheet)?;
    total_fault(m.total)?;
    Ok((m.total, m.sheeted.nulls))
}
