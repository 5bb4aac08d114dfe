// The open choices of the second lister: a walk that stands in the path, and a link by which it may still go on. They stand in two arrays, how
// many objects the walk has and the link, one choice after the other; the one that was put last is taken up first.
ghost use Rattle.std.specs.Prelude.{◌≡◌, ◌+◌, ◌≤◌, ◌<◌, [], ◌∷◌};
ghost use Rattle.route_graph.specs.Ways.{legs_of, exits_of};
ghost use Rattle.route_walks.specs.Range.{limit_most};
ghost use Rattle.route_lister.specs.inner.Choices.{choice_at, Sized, Put};

use route_graph::{Object, TurnoutLinks};
use route_walks::LIMIT_MOST;

// The walk of the first objects of the path, and a link by which it may go on.
// Stays (6): in one array of choices a choice is stored in two halves and loaded as one, which waits for both; with its halves loaded apart, and the walk
// in a struct as file `marks` says, the second lister took 631 us in place of 452, on the yard of the row `routes` of tools/bench, without the verdict.
#[derive(Clone, Copy)]
pub struct Choice {
    pub objects: u16,
    pub link: u16,
}

// The choice that stands above some others.
pub fn choice_above(objects: &[u16; LIMIT_MOST], links: &[u16; LIMIT_MOST], others: usize) -> Choice
    requires { others < limit_most }
    ensures { result ≡ choice_at objects.now links.now others }
{
    Choice {
        objects: objects[others],
        link: links[others],
    }
}

// Puts a choice above those that are open. It answers how many are open then.
pub fn put_choice(
    objects: &mut [u16; LIMIT_MOST],
    links: &mut [u16; LIMIT_MOST],
    waiting: usize,
    n: usize,
    link: u16,
) -> usize
    requires { (waiting < limit_most) × (n ≤ limit_most) × Sized objects.old links.old }
    ensures { Put n (link ∷ []) waiting result objects.old links.old objects.new links.new }
{
    objects[waiting] = n as u16;
    links[waiting] = link;
    waiting + 1
}

// Puts the links by which a turnout is left that was entered from `from`: reverse and then normal, which is so taken up first.
fn put_legs(
    t: TurnoutLinks,
    from: u16,
    objects: &mut [u16; LIMIT_MOST],
    links: &mut [u16; LIMIT_MOST],
    waiting: usize,
    n: usize,
) -> usize
    requires { (waiting + 2 ≤ limit_most) × (n ≤ limit_most) × Sized objects.old links.old }
    ensures { Put n (legs_of t from) waiting result objects.old links.old objects.new links.new }
{
    let front = t.front;
    if front != from {
        return put_choice(objects, links, waiting, n, front);
    }
    let below = put_choice(objects, links, waiting, n, t.reverse);
    put_choice(objects, links, below, n, t.normal)
}

// Puts the links by which an object is left that was entered from `from` and is the last of the n in the path.
pub fn put_exits(
    o: Object,
    from: u16,
    objects: &mut [u16; LIMIT_MOST],
    links: &mut [u16; LIMIT_MOST],
    waiting: usize,
    n: usize,
) -> usize
    requires { (waiting + 2 ≤ limit_most) × (n ≤ limit_most) × Sized objects.old links.old }
    ensures { Put n (exits_of o from) waiting result objects.old links.old objects.new links.new }
{
    match o {
        Object::Boundary(_) => waiting,
        Object::Plain(p) => put_choice(objects, links, waiting, n, p.onward(from)),
        Object::Turnout(t) => put_legs(t, from, objects, links, waiting, n),
        Object::Nothing => waiting,
    }
}
