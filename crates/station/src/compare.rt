// Comparing two rows as bytes.
ghost use Rattle.std.specs.Prelude.{◌≡◌, pos, negsuc};
ghost use Rattle.std.specs.Ordering.{match_ordering};
ghost use Rattle.format.specs.Promises.{Compared};

use std::cmp::Ordering;

// −1, 0 or 1 for below, equal or above: the numbers of `Compared`, which `compare` promises.
fn sign(order: Ordering) -> i32
    ensures { result ≡ match_ordering order (negsuc 0) (pos 0) (pos 1) }
{
    order as i32
}

// −1, 0 or 1: unsigned bytes, a proper beginning first.
pub fn compare(a: &[u8], b: &[u8]) -> i32
    ensures { Compared a.now b.now result }
{
    sign(byte_order::compare(a, b))
}
