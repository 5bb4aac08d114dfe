// The list of the objects ahead: a link is followed after the other, until the list stops.
ghost use Rattle.std.specs.Prelude.{◌≡◌, []};
ghost use Rattle.route_graph.specs.Objects.{object_at};
ghost use Rattle.route_walks.specs.Lent.{lays};
ghost use Rattle.ahead.specs.Ahead.{objects_most};
ghost use Rattle.ahead.specs.Seen.{ahead_from, sight_of};
ghost use Rattle.ahead.specs.inner.Followed.{Followed};

use crate::ways::way_of;
use crate::{OBJECTS_MOST, Sight, Stop};
use route_graph::object_at;
use route_walks::{put_words, stands_in};
use x2_layout::Layout;

// A list of n objects that stops for a reason.
fn ends(n: usize, stop: Stop) -> Sight
    ensures { result ≡ record { objects = n; stop = stop } }
{
    Sight { objects: n, stop }
}

// Follows the links from the object that was last passed, by the link `first`, and puts each object that it lists in the path.
fn follow(
    g: &[u8],
    l: Layout,
    lies: &[u8],
    passed: u16,
    first: u16,
    path: &mut [u16; OBJECTS_MOST],
) -> Sight
    ensures { Followed (ahead_from (object_at g.now l) lies.now passed objects_most [] passed first) path.new result }
{
    // Stays (6): a project rule, no heap: the objects listed stand in fixed memory.
    let mut n: usize = 0;
    let mut from = passed;
    let mut to = first;
    loop {
        if to == 0 {
            return ends(n, Stop::NoLink);
        }
        if (passed == to) | stands_in(&path[..n], to) {
            return ends(n, Stop::Repeated);
        }
        if n == OBJECTS_MOST {
            return ends(n, Stop::Full);
        }
        path[n] = to;
        n += 1;
        match way_of(object_at(g, l, to), from, lies) {
            Err(stop) => return ends(n, stop),
            Ok(next) => {
                from = to;
                to = next;
            }
        }
    }
}

// The objects ahead in the bytes lent, as many as find room: two bytes for each, low byte first.
pub fn list(g: &[u8], l: Layout, lies: &[u8], passed: u16, first: u16, out: &mut [u8]) -> Sight
    ensures seen { result ≡ sight_of (ahead_from (object_at g.now l) lies.now passed objects_most [] passed first) }
    ensures stored { out.new ≡ lays out.old 0 (ahead_from (object_at g.now l) lies.now passed objects_most [] passed first).objects }
{
    let mut path = [0u16; OBJECTS_MOST];
    let seen = follow(g, l, lies, passed, first, &mut path);
    put_words(out, 0, &path[..seen.objects]);
    seen
}
