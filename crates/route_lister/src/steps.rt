// What the lister does with each partial walk that it opens: the test whether it opens one, the count, and the words of a route.
ghost use Rattle.std.specs.Prelude.{◌≡◌, ◌+◌, ◌^◌, ◌≤◌, ◌<◌, ◌∷◌, length, take};
ghost use Rattle.route_walks.specs.Lent.{lays};
ghost use Rattle.route_walks.specs.Range.{limit_most, budget_most};
ghost use Rattle.route_walks.specs.inner.Grown.{Sane, Counted};
ghost use Rattle.route_lister.specs.inner.Marks.{Marked};
ghost use Rattle.route_lister.specs.inner.Steps.{Tested};

use crate::marks::{CELLS, stands};
use route_walks::{Tally, put_words};

// What is counted before any link is followed: the walk of the boundary alone.
pub const ONE_WALK: Tally = Tally {
    walks: 1,
    routes: 0,
    words: 0,
};

// Whether a walk of the first n of a path opens another by the link `to`: the link names an object, `left` objects more are allowed, the
// walks do not outnumber the budget, and the object does not stand in the walk.
pub fn opens(
    path: &[u16],
    marks: &[u16; CELLS],
    n: usize,
    to: u16,
    left: usize,
    walks: usize,
    budget: usize,
) -> bool
    requires { (n ≤ length path.now) × Marked marks.now path.now n }
    ensures { Tested (take n path.now) to left walks budget result }
{
    if to == 0 {
        return false;
    }
    if left == 0 {
        return false;
    }
    if budget < walks {
        return false;
    }
    !stands(path, marks, n, to)
}

// Stores the words of the route in the first n of a path: its object count and then the offsets, as many as find room. The pass that only counts has
// room for none.
pub fn put_in_room(path: &[u16], n: usize, out: &mut [u8], at: usize)
    requires { (n ≤ length path.now) × (n ≤ limit_most) × (at < 2 ^ 63) }
    ensures { out.new ≡ lays out.old at (n ∷ take n path.now) }
{
    put_words(out, at, &[n as u16]);
    put_words(out, at + 1, &path[..n]);
}

// Counts a partial walk that is no route.
pub fn opened(t: Tally) -> Tally
    requires { Sane budget_most t }
    ensures { Counted 1 0 0 t result }
{
    Tally {
        walks: t.walks + 1,
        ..t
    }
}

// Counts the route in the first n of a path, and stores its words.
pub fn arrived(path: &[u16], n: usize, out: &mut [u8], t: Tally) -> Tally
    requires { (n ≤ length path.now) × (n ≤ limit_most) × Sane budget_most t }
    ensures counted { Counted 1 1 (n + 1) t result }
    ensures stored { out.new ≡ lays out.old t.words (n ∷ take n path.now) }
{
    let at = t.words;
    put_in_room(path, n, out, at);
    Tally {
        routes: t.routes + 1,
        words: at + (n + 1),
        ..opened(t)
    }
}
