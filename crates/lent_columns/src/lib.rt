// Columns that the caller lends, copied and judged.
#![tactic(auto)]

ghost use Rattle.format.specs.Described.{described as described·};
ghost use Rattle.list_reader.specs.Listing.{ListedAs};

use column_reader::judge;
use format::{Column, Refusal, Schema};

// The columns, copied and judged.
pub fn described(columns: &[Column]) -> Result<Schema, Refusal>
    ensures { ListedAs (described· columns.now) result }
{
    judge(columns)
}
