// Where a record starts, in a file whose layout is right: in a region of one size by arithmetic, among the balises by their walk.
ghost use Rattle.std.specs.Prelude.{◌≡◌, ◌<◌};
ghost use Rattle.verdict.specs.Facts.{test};
ghost use Rattle.x2_layout.specs.inner.Bounds.{slice_over};
ghost use Rattle.x2_layout.specs.Records.{is_start};
ghost use Rattle.x2_layout.specs.inner.Regions.{Regions};
ghost use Rattle.x2_verdict.specs.inner.Starts.{balise_starts};

use x2_layout::{Layout, size_of};
use x2_records::{Boundary, Joint, Kind, Siding, Signal, Turnout};

// Whether a balise starts at x, of those that stand without gaps from a place on: by the walk up to x.
fn starts_balise(f: &[u8], from: usize, x: usize) -> bool
    requires { x < slice_over }
    ensures { result ≡ test (balise_starts f.now from x) }
{
    let mut at = from;
    // Stays (3): no plainer; a step is the size of the balise just read, which no range counts by, and an iterator of our own is longer.
    while at < x {
        at = at + size_of(f, Kind::Balise, at);
    }
    at == x
}

// Whether a record starts at a place, in a file whose layout is right.
pub fn starts_record(f: &[u8], l: Layout, x: usize) -> bool
    requires { Regions f.now l }
    ensures { result ≡ test (is_start f.now l x) }
{
    if x < l.starts {
        return false;
    }
    if x < l.turnouts {
        return (x - l.starts) % Boundary::SIZE == 0;
    }
    if x < l.balises {
        return (x - l.turnouts) % Turnout::SIZE == 0;
    }
    if x < l.signals {
        return starts_balise(f, l.balises, x);
    }
    if x < l.joints {
        return (x - l.signals) % Signal::SIZE == 0;
    }
    if x < l.sidings {
        return (x - l.joints) % Joint::SIZE == 0;
    }
    if x < l.end {
        return (x - l.sidings) % Siding::SIZE == 0;
    }
    false
}
