// Whether a row has a value. A chunk without nulls is known by one look at its bits, so that its rows need none of their own.
ghost use Rattle.std.specs.Prelude.{◌≡◌, true, ◌/◌, ◌<◌, ◌≤◌, length};
ghost use Rattle.format.specs.Sheet.{bit, packed};
ghost use Rattle.chunk_writer.specs.Valid.{AllValid};

use number::Word;

// Whether all rows from `from` to before `to` have values, as far as one word tells: 64 rows that begin with a word of bits.
pub fn all_valid(part: &[u8], from: usize, to: usize) -> bool
    requires { (from ≤ to) × (packed to ≤ length part.now) }
    ensures { result ≡ true → AllValid part.now from to }
{
    if from % 64 != 0 {
        return false;
    }
    if to - from != 64 {
        return false;
    }
    u64::low(part, from / 8) == u64::MAX
}

// Whether row r has one, where `full` says that all have.
pub fn has_value(full: bool, part: &[u8], r: usize) -> bool
    requires r_in_bounds { r / 8 < length part.now }
    requires r_value { full ≡ true → bit part.now r ≡ true }
    ensures { result ≡ bit part.now r }
{
    full || bits::bit(part, r)
}
