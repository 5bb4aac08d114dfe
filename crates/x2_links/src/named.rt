// Whether an object starts at a place that a link may name, of any file and any layout: by the walk of the records up to the place.
ghost use Rattle.std.specs.Prelude.{◌≡◌};
ghost use Rattle.x2_links.specs.Links.{may_name};

use crate::marks::may_link;
use x2_layout::{Layout, PLACE_MOST, kind_at, size_of};

// Whether a link may name x: an object starts there, which is no siding, and of balises the first of its group.
pub fn may_name(f: &[u8], l: Layout, x: usize) -> bool
    ensures { result ≡ may_name f.now l x }
{
    if PLACE_MOST < x {
        return false;
    }
    if l.end <= x {
        return false;
    }
    let mut at = l.starts;
    // Stays (3): no plainer; a step is the size of the record just read, which no range counts by, and an iterator of our own is longer.
    while at < x {
        at = at + size_of(f, kind_at(l, at), at);
    }
    if at != x {
        return false;
    }
    may_link(f, kind_at(l, x), x as u32)
}
