// The measuring walk: the total row bytes of a checked sheet, column by column.
#![tactic(auto)]

ghost use Rattle.std.specs.Prelude.{◌≡◌, ◌≤◌, Ok};
ghost use Rattle.format.specs.Limits.{max_rows};
ghost use Rattle.format.specs.Sheet.{sheet_fault};
ghost use Rattle.format.specs.Schemas.{schema_of, Limited};
ghost use Rattle.format.specs.Entries.{sheet_total};
ghost use Rattle.sheet_reader.specs.Sheets.{columns_of, Known};

use sheet_lengths::measure_column;
use sheet_reader::sheet::Facts;

// The total row bytes of a sheet whose columns are known by their facts.
pub fn measure_sheet(n: usize, sheet: &[u8], facts: &[Facts]) -> u64
    requires n_le_max_rows { n ≤ max_rows }
    requires limited { Limited (schema_of (columns_of facts.now)) }
    requires sheet_value { sheet_fault n (columns_of facts.now) sheet.now ≡ Ok tt }
    requires known { Known n (columns_of facts.now) sheet.now facts.now }
    ensures { result ≡ sheet_total n (columns_of facts.now) sheet.now }
{
    let mut total: u64 = 0;
    for f in facts {
        total += measure_column(f.column, &sheet[f.base..], n);
    }
    total
}
