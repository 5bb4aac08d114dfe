// The second lister: one loop, which takes up an open choice after the other until none is left. No function here calls itself, directly or
// through others. With the first lister it shares the reading of an object, the test for a repeat, the storing of a route's words, and how a
// question is settled in two passes; how the walks are found, counted and put in order comes from here and the arrays of open choices alone.
ghost use Rattle.std.specs.Prelude.{◌≡◌, ◌≤◌, length, take};
ghost use Rattle.route_graph.specs.Objects.{is_boundary};
ghost use Rattle.route_walks.specs.Lent.{room_of};
ghost use Rattle.route_walks.specs.Range.{limit_most, budget_most, Bounds};
ghost use Rattle.route_walks.specs.inner.Grown.{Sane};
ghost use Rattle.route_lister.specs.inner.Marks.{Marked};
ghost use Rattle.route_lister.specs.inner.Choices.{Sized, goes_on, Taken, taken_bytes, TakenUp};
ghost use Rattle.route_lister.specs.Answered.{answer_in, left_in};

use crate::asked::{Lister, list_by};
use crate::choices::{choice_above, put_choice, put_exits};
use crate::marks::{CELLS, push, stands};
use crate::steps::{ONE_WALK, put_in_room};
use route_graph::{Ends, Object, ends_of, object_at, object_in};
use route_walks::{LIMIT_MOST, Tally};
use verdict::Fault;
use x2_layout::Layout;

// Whether the walk of the first n of a path goes on by a link: it names an object, the limit allows one more, and the object does not stand
// in the walk.
fn goes_on(path: &[u16], marks: &[u16; CELLS], n: usize, link: u16, limit: usize) -> bool
    requires { (n ≤ length path.now) × Marked marks.now path.now n }
    ensures { result ≡ goes_on (take n path.now) n link limit }
{
    if link == 0 {
        return false;
    }
    if limit <= n {
        return false;
    }
    !stands(path, marks, n, link)
}

// Counts the walk of the first n of a path, which ends at the object o. At a boundary it is a route, and its words are stored.
fn count(o: Object, path: &[u16], n: usize, out: &mut [u8], t: Tally) -> Tally
    requires { (n ≤ length path.now) × (n ≤ limit_most) × Sane budget_most t }
    ensures counted { Taken (is_boundary o) n t result }
    ensures stored { out.new ≡ taken_bytes (is_boundary o) out.old t.words n (take n path.now) }
{
    let walks = t.walks + 1;
    if !o.is_boundary() {
        return Tally { walks, ..t };
    }
    let at = t.words;
    put_in_room(path, n, out, at);
    Tally {
        walks,
        routes: t.routes + 1,
        words: at + (n + 1),
    }
}

// Takes up the open choices, the last one first, until none is left or the walks outnumber the budget. At first the path has its first object
// alone, which is counted, and the one choice is its link.
fn take_up(
    f: &[u8],
    e: Ends,
    first: u16,
    limit: usize,
    budget: usize,
    path: &mut [u16],
    marks: &mut [u16; CELLS],
    objects: &mut [u16; LIMIT_MOST],
    links: &mut [u16; LIMIT_MOST],
    out: &mut [u8],
) -> Tally
    requires { Bounds limit budget × (limit_most ≤ length path.old) × Marked marks.old path.old 1 × Sized objects.old links.old }
    ensures { TakenUp f.now e first limit budget path.old result out.old out.new }
{
    let mut t = ONE_WALK;
    let mut n = 1;
    let mut waiting = put_choice(objects, links, 0, n, first);
    while (0 < waiting) & (t.walks <= budget) {
        waiting -= 1;
        let choice = choice_above(objects, links, waiting);
        let link = choice.link;
        n = choice.objects as usize;
        if goes_on(path, marks, n, link, limit) {
            let from = path[n - 1];
            push(path, marks, n, link);
            n += 1;
            let o = object_in(f, e, link);
            t = count(o, path, n, out, t);
            waiting = put_exits(o, from, objects, links, waiting, n);
        }
    }
    t
}

// The lister that holds the open choices.
pub struct Flat;

impl Lister for Flat {
    fn pass(f: &[u8], l: Layout, start: u16, limit: usize, budget: usize, out: &mut [u8]) -> Tally {
        let mut path = [0u16; LIMIT_MOST];
        path[0] = start;
        let mut marks = [0u16; CELLS];
        let mut objects = [0u16; LIMIT_MOST];
        let mut links = [0u16; LIMIT_MOST];
        let e = ends_of(l);
        let first = object_at(f, l, start).edge_link();
        take_up(
            f,
            e,
            first,
            limit,
            budget,
            &mut path,
            &mut marks,
            &mut objects,
            &mut links,
            out,
        )
    }
}

// What `list` answers and leaves, by the second lister.
pub fn list_flat(
    f: &[u8],
    l: Layout,
    start: usize,
    limit: usize,
    budget: usize,
    out: &mut [u8],
) -> Result<Tally, Fault>
    ensures answered { result ≡ answer_in f.now l start limit budget (room_of out.old) }
    ensures written { out.new ≡ left_in f.now l start limit budget out.old }
{
    list_by::<Flat>(f, l, start, limit, budget, out)
}
