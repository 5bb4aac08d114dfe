// The balises of a group, one after the other (01, 'Layout faults'): each has its own size.
ghost use Rattle.std.specs.Prelude.{◌≡◌, ◌<◌, ◌+◌};
ghost use Rattle.verdict.specs.Facts.{test, first_fault};
ghost use Rattle.x2_layout.specs.inner.Bounds.{slice_over};
ghost use Rattle.x2_layout.specs.inner.Sizes.{balise_fits, Passed};
ghost use Rattle.x2_layout.specs.Groups.{right_size, balise_layout, walk_layout};

use crate::{SIZE_LEAST, SIZE_MOST};
use octets::byte_at;
use rules::fits;
use verdict::{Mark, Reason, Rule, fact};
use x2_records::Balise;

// A size byte is 16, or 18 to 120.
fn is_right_size(n: usize) -> bool
    ensures { result ≡ test (right_size n) }
{
    (n == Balise::SIZE) | ((SIZE_LEAST <= n) & (n <= SIZE_MOST))
}

// A balise at a place whose size byte is n: 16 bytes are left of its group, its size byte is right, and it is not too large for the rest.
fn balise_obeys(at: usize, n: usize, until: usize) -> bool
    requires { (at < slice_over) × (n < 256) }
    ensures { result ≡ balise_fits at n until }
{
    if until < at + Balise::SIZE {
        return false;
    }
    is_right_size(n) & (at + n <= until)
}

// The same, as facts; the end of its group is told at `next`.
// Stays (2): the walk over the balises asks the test first, which is quicker than the facts, and the facts only where it fails.
fn balise_layout(f: &[u8], at: usize, until: usize, next: usize) -> Result<(), Mark>
    requires { at < slice_over }
    ensures { result ≡ first_fault (balise_layout f.now until next at) }
{
    let field = at + Balise::SIZE_BYTE.0 as usize;
    let n = byte_at(f, field);
    fits(at, at, 0, at + Balise::SIZE, at, until, next)?;
    let rule = Rule::SizeByte(field, SIZE_LEAST, SIZE_MOST);
    fact(is_right_size(n), Reason::Layout, at, at, 0, rule)?;
    fits(at, at, 0, at + n, field, until, next)
}

// Past the balises without a message, from a place on: where the first one stands that has a message or may be wrong. Each of them has the
// least size, so that no step waits for what was read.
// Stays (5): a bound on one number, an end inside the file.
fn past_plain(f: &[u8], from: usize, until: usize) -> usize
    requires { (from < slice_over + 256) × (until < slice_over) }
    ensures { Passed f.now until from result }
{
    let top = until.min(f.len());
    let mut at = from;
    // Stays (3): over the rest of the group as arrays, a chain would give a count, of which the place is reckoned again.
    while at + Balise::SIZE <= top && f[at + Balise::SIZE_BYTE.0 as usize] == Balise::SIZE as u8 {
        at = at + Balise::SIZE;
    }
    at
}

// The balises of the group that stands from a place to another, which is told at `next`: the facts of the first that does not obey are the
// verdict.
#[tactic(auto, using(crate::proofs::Sizes::fits_least, crate::proofs::Sizes::walk_over, crate::proofs::Sizes::walk_fault, crate::proofs::Sizes::walk_stop))]
pub fn walk_layout(f: &[u8], from: usize, until: usize, next: usize) -> Result<(), Mark>
    requires { until < slice_over }
    ensures { result ≡ first_fault (walk_layout f.now from until next) }
{
    let mut at = from;
    // Stays (3): each balise says where the next one starts; an iterator of them would hold the same lines, and one more to make it.
    while at < until {
        let n = byte_at(f, at + Balise::SIZE_BYTE.0 as usize);
        if !balise_obeys(at, n, until) {
            return balise_layout(f, at, until, next);
        }
        at = past_plain(f, at + n, until);
    }
    Ok(())
}
