// The few numbers of a layout that tell what object stands at a place: where the boundaries, the turnouts and the plain objects end.
ghost use Rattle.std.specs.Prelude.{◌≡◌};
ghost use Rattle.route_graph.specs.inner.Ends.{ends_of, kind_in, object_in};

use crate::{Object, record_at};
use x2_layout::Layout;
use x2_records::Kind;

// Where the boundaries, the turnouts and the plain objects end.
#[derive(Clone, Copy)]
pub struct Ends {
    pub boundaries: usize,
    pub turnouts: usize,
    pub plain: usize,
}

// Where the objects of a layout end.
pub fn ends_of(l: Layout) -> Ends
    ensures { result ≡ ends_of l }
{
    Ends {
        boundaries: l.ends.max(l.turnouts),
        turnouts: l.balises,
        plain: l.signals.max(l.joints).max(l.sidings),
    }
}

// A kind whose links stand where those of the object at a place stand: one for both boundaries, and one for all plain objects.
pub fn kind_in(e: Ends, at: usize) -> Kind
    ensures { result ≡ kind_in e at }
{
    if at < e.boundaries {
        return Kind::EndBoundary;
    }
    if at < e.turnouts {
        return Kind::Turnout;
    }
    if at < e.plain {
        return Kind::Balise;
    }
    Kind::Siding
}

// The object that starts at a place, of a layout whose objects end there.
#[inline(always)]
pub fn object_in(f: &[u8], e: Ends, at: u16) -> Object
    ensures { result ≡ object_in f.now e at }
{
    record_at(f, kind_in(e, usize::from(at)), at)
}
