// Measuring: how many bytes the rows of a sheet take.
ghost use Rattle.format.specs.Described.{spelled};
ghost use Rattle.format.specs.Promises.{Measured};

use format::Refusal;
use list_reader::read_list;
use measurer::measure_listed;

// Total row bytes and the null total, or the refusal.
pub fn measure(list: &[u8], n: u64, sheet: &[u8]) -> Result<(u64, u64), Refusal>
    ensures { Measured (spelled list.now) n sheet.now result }
{
    measure_listed(read_list(list), n, sheet)
}
