// The first lister. Following one link and branching at a turnout call each other; the objects still allowed by the limit fall.
ghost use Rattle.std.specs.Prelude.{◌≡◌, take};
ghost use Rattle.route_walks.specs.Lent.{room_of};
ghost use Rattle.route_lister.specs.inner.Ready.{Ready, Held, Followed, Branched};
ghost use Rattle.route_lister.specs.Answered.{answer_in, left_in};

use crate::asked::{Lister, list_by};
use crate::marks::{CELLS, push};
use crate::steps::{ONE_WALK, arrived, opened, opens};
use crate::ways::{Way, way_of};
use route_graph::{Ends, TurnoutLinks, ends_of, object_at, object_in};
use route_walks::{LIMIT_MOST, Tally};
use verdict::Fault;
use x2_layout::Layout;

// Follows the link `to` of the object `from`, which is the last of the n in path: opens each partial walk that goes on by it with at most
// `left` objects more, along the line to where it ends or forks. Stops once the walks outnumber the budget.
#[cycle(branch_follow)]
fn follow(
    f: &[u8],
    e: Ends,
    from: u16,
    to: u16,
    path: &mut [u16],
    marks: &mut [u16; CELLS],
    n: usize,
    left: usize,
    budget: usize,
    out: &mut [u8],
    t: Tally,
) -> Tally
    requires { Ready budget marks.old path.old n left t }
    ensures held { Held n path.old path.new marks.new }
    ensures grown { Followed f.now e from to (take n path.old) left budget t result out.old out.new }
{
    let mut last = from;
    let mut next = to;
    let mut k = n;
    let mut more = left;
    let mut u = t;
    while opens(path, marks, k, next, more, u.walks, budget) {
        push(path, marks, k, next);
        k += 1;
        more -= 1;
        let w = opened(u);
        match way_of(object_in(f, e, next), last) {
            Way::Arrives => return arrived(path, k, out, u),
            Way::Forks(j) => return branch(f, e, next, j, path, marks, k, more, budget, out, w),
            Way::On(link) => {
                u = w;
                last = next;
                next = link;
            }
        }
    }
    u
}

// Goes on from the turnout `at`, the last of the n in path, which was entered at the front: by normal and then by reverse.
#[cycle(branch_follow)]
fn branch(
    f: &[u8],
    e: Ends,
    at: u16,
    links: TurnoutLinks,
    path: &mut [u16],
    marks: &mut [u16; CELLS],
    n: usize,
    left: usize,
    budget: usize,
    out: &mut [u8],
    t: Tally,
) -> Tally
    requires { Ready budget marks.old path.old n left t }
    ensures held { Held n path.old path.new marks.new }
    ensures grown { Branched f.now e at links (take n path.old) left budget t result out.old out.new }
{
    let normal = links.normal;
    let reverse = links.reverse;
    let u = follow(f, e, at, normal, path, marks, n, left, budget, out, t);
    follow(f, e, at, reverse, path, marks, n, left, budget, out, u)
}

// The lister whose functions call each other.
pub struct Nested;

impl Lister for Nested {
    fn pass(f: &[u8], l: Layout, start: u16, limit: usize, budget: usize, out: &mut [u8]) -> Tally {
        let mut path = [0u16; LIMIT_MOST];
        path[0] = start;
        let mut marks = [0u16; CELLS];
        let e = ends_of(l);
        let first = object_at(f, l, start).edge_link();
        follow(
            f,
            e,
            start,
            first,
            &mut path,
            &mut marks,
            1,
            limit - 1,
            budget,
            out,
            ONE_WALK,
        )
    }
}

// Every route from the boundary `start`, in order, with the numbers of the listing. The words go to the front of `out`, two bytes each, low
// byte first; a refusal leaves every byte of it as it was.
pub fn list(
    f: &[u8],
    l: Layout,
    start: usize,
    limit: usize,
    budget: usize,
    out: &mut [u8],
) -> Result<Tally, Fault>
    ensures answered { result ≡ answer_in f.now l start limit budget (room_of out.old) }
    ensures written { out.new ≡ left_in f.now l start limit budget out.old }
{
    list_by::<Nested>(f, l, start, limit, budget, out)
}
