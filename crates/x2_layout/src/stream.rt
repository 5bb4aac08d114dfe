// The records of a file, one after the other: the kind and the size of each.
ghost use Rattle.std.specs.Prelude.{◌≡◌, ◌≤◌, ◌<◌};
ghost use Rattle.x2_records.specs.Places.{balise_size};
ghost use Rattle.x2_layout.specs.Facts.{balise_bytes};
ghost use Rattle.x2_layout.specs.Records.{kind_at, IsSize};

use crate::Layout;
use octets::byte_after;
use x2_records::{Balise, Boundary, Joint, Kind, Siding, Signal, Turnout};

// The kind of the record that starts at a place, by the region that the place lies in.
#[tactic(auto, unfolding(crate::specs::Records::kind_at))]
pub fn kind_at(l: Layout, at: usize) -> Kind
    ensures { result ≡ kind_at l at }
{
    if at < l.ends {
        return Kind::StartBoundary;
    }
    if at < l.turnouts {
        return Kind::EndBoundary;
    }
    if at < l.balises {
        return Kind::Turnout;
    }
    if at < l.signals {
        return Kind::Balise;
    }
    if at < l.joints {
        return Kind::Signal;
    }
    if at < l.sidings {
        return Kind::Joint;
    }
    Kind::Siding
}

// How many bytes the balise at a place has: its size byte, and never under 16.
#[tactic(auto, unfolding(crate::specs::Groups::balise_bytes))]
pub fn balise_bytes(f: &[u8], at: usize) -> usize
    ensures value { result ≡ balise_bytes f.now at }
    ensures lower_bound { (balise_size ≤ result) × (result < 256) }
{
    let n = byte_after(f, at, Balise::SIZE_BYTE.0 as usize);
    n.max(Balise::SIZE)
}

// How many bytes the record of a kind at a place has.
#[tactic(auto, unfolding(crate::specs::Records::size_of))]
pub fn size_of(f: &[u8], k: Kind, at: usize) -> usize
    ensures { IsSize f.now k at result }
{
    match k {
        Kind::StartBoundary => Boundary::SIZE,
        Kind::EndBoundary => Boundary::SIZE,
        Kind::Turnout => Turnout::SIZE,
        Kind::Balise => balise_bytes(f, at),
        Kind::Signal => Signal::SIZE,
        Kind::Joint => Joint::SIZE,
        Kind::Siding => Siding::SIZE,
    }
}
