// How a walk goes on from an object that it has reached (01, 'Routes').
ghost use Rattle.std.specs.Prelude.{◌≡◌};
ghost use Rattle.route_lister.specs.inner.Ways.{turnout_way, way_of};

use route_graph::{Object, TurnoutLinks};

// How a walk goes on.
#[derive(Clone, Copy)]
pub enum Way {
    // not at all: a boundary is reached, and the walk is a route
    Arrives,
    // by normal and by reverse: a turnout, entered at the front
    Forks(TurnoutLinks),
    // by this link, which 0 ends
    // Stays (1): 0 is a link that names nothing in the paper's own words, as in crate route_graph.
    On(u16),
}

// How a walk goes on from an object that it entered from `from`.
pub fn way_of(o: Object, from: u16) -> Way
    ensures { result ≡ way_of o from }
{
    match o {
        Object::Boundary(_) => Way::Arrives,
        Object::Plain(p) => Way::On(p.onward(from)),
        Object::Turnout(links) => at_turnout(links, from),
        Object::Nothing => Way::On(0),
    }
}

// The same of a turnout: entered at the front it forks, entered at either leg it is left by the front.
fn at_turnout(links: TurnoutLinks, from: u16) -> Way
    ensures { result ≡ turnout_way links from }
{
    let front = links.front;
    if front == from {
        return Way::Forks(links);
    }
    Way::On(front)
}
