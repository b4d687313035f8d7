// The demand on rows from a pipe: a function that calls the real entries, and ensures that where the pieces are cut does not matter. It asks
// nothing of its caller.
#![tactic(auto)]

ghost use Rattle.std.specs.Prelude.{◌≡◌, ◌≤◌, length};
ghost use Rattle.streams.specs.Anywhere.{place_in, lent, CutTwice};

use cutter::Cutting;
use format::Cutter;
use station::stream::cut;

// What one call with all of a piece hands out, and what a call with its front and one with the rest of it.
#[derive(Clone, Copy)]
pub struct TwoWays {
    pub whole: Cutting,
    pub front: Cutting,
    pub rest: Cutting,
}

// A place of the piece, or its end.
fn place_in(at: usize, size: usize) -> usize
    ensures { (result ≡ place_in at size) × (result ≤ size) }
{
    if at < size {
        return at;
    }
    size
}

// A piece in one call, and cut at any place in two.
pub fn cut_twice(
    state: Cutter,
    piece: &[u8],
    at: usize,
    ends: &mut [u64],
    first: &mut [u64],
    second: &mut [u64],
) -> TwoWays
    ensures { CutTwice state piece.now at
        (lent ends.old ends.new) (lent first.old first.new) (lent second.old second.new) result }
{
    let place = place_in(at, piece.len());
    let whole = cut(state, piece, ends);
    let before = &piece[0..place];
    let front = cut(state, before, first);
    let middle = front.state;
    let after = &piece[place..];
    let rest = cut(middle, after, second);
    TwoWays {
        whole: whole,
        front: front,
        rest: rest,
    }
}
