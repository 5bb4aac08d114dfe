// The records of a fixed application file (01, 'X.2, fixed application'; the standard's tables 6 to 12), one module for each table: what
// the bytes at a place mean, read as a record of a kind. The kind follows from the place in the file, so it is given and never taken from
// the type byte. A place is a 16-bit number, as every offset in the file is, and a byte past the end counts as 0: each reading answers
// for every file and every place.
#![tactic(auto)]

ghost use Rattle.std.specs.Prelude.{◌≡◌};
ghost use Rattle.x2_records.specs.Records.{fixed_size, link_fields, record_at};

use tables::place_of;

mod balises;
mod boundaries;
mod joints;
mod sidings;
mod signals;
mod turnouts;

pub use balises::{Balise, GroupDirection, Nature};
pub use boundaries::Boundary;
pub use joints::Joint;
pub use sidings::Siding;
pub use signals::{Duty, Facing, Signal};
pub use turnouts::{Direction, Turnout};

// What a record is, in stored order.
#[derive(Clone, Copy)]
pub enum Kind {
    StartBoundary,
    EndBoundary,
    Turnout,
    Balise,
    Signal,
    Joint,
    Siding,
}

impl Kind {
    // How many bytes a record of the kind has; a balise's message comes on top.
    pub fn size(self) -> usize
        ensures { result ≡ fixed_size self }
    {
        match self {
            Kind::StartBoundary => Boundary::SIZE,
            Kind::EndBoundary => Boundary::SIZE,
            Kind::Turnout => Turnout::SIZE,
            Kind::Balise => Balise::SIZE,
            Kind::Signal => Signal::SIZE,
            Kind::Joint => Joint::SIZE,
            Kind::Siding => Siding::SIZE,
        }
    }

    // Where the links stand of the record of the kind at a place: a boundary has one, a turnout three (front, normal, reverse), balise,
    // signal and joint two (previous, next), a siding none.
    pub fn links(self, at: u32) -> Links
        ensures { result ≡ link_fields self at }
    {
        match self {
            Kind::StartBoundary => Links::One(place_of(at, Boundary::LINK)),
            Kind::EndBoundary => Links::One(place_of(at, Boundary::LINK)),
            Kind::Turnout => {
                let front = place_of(at, Turnout::FRONT);
                let normal = place_of(at, Turnout::NORMAL);
                let reverse = place_of(at, Turnout::REVERSE);
                Links::Three(front, normal, reverse)
            }
            Kind::Balise => {
                let previous = place_of(at, Balise::PREVIOUS);
                Links::Two(previous, place_of(at, Balise::NEXT))
            }
            Kind::Signal => {
                let previous = place_of(at, Signal::PREVIOUS);
                Links::Two(previous, place_of(at, Signal::NEXT))
            }
            Kind::Joint => {
                let previous = place_of(at, Joint::PREVIOUS);
                Links::Two(previous, place_of(at, Joint::NEXT))
            }
            Kind::Siding => Links::Nothing,
        }
    }
}

// How many bytes a link has.
pub const LINK_SIZE: usize = 2;

// Where the links of a record stand, in the order of its fields (01, 'Links').
#[derive(Clone, Copy)]
pub enum Links {
    Nothing,
    One(usize),
    Two(usize, usize),
    Three(usize, usize, usize),
}

// A record, decoded.
#[derive(Clone, Copy)]
pub enum Record {
    StartBoundary(Boundary),
    EndBoundary(Boundary),
    Turnout(Turnout),
    Balise(Balise),
    Signal(Signal),
    Joint(Joint),
    Siding(Siding),
}

impl Record {
    // The record of a kind that starts at a place.
    #[tactic(auto, unfolding(crate::specs::Records::record_at))]
    pub fn read(s: &[u8], k: Kind, at: u16) -> Self
        ensures { result ≡ record_at s.now k at }
    {
        match k {
            Kind::StartBoundary => Record::StartBoundary(Boundary::read(s, at)),
            Kind::EndBoundary => Record::EndBoundary(Boundary::read(s, at)),
            Kind::Turnout => Record::Turnout(Turnout::read(s, at)),
            Kind::Balise => Record::Balise(Balise::read(s, at)),
            Kind::Signal => Record::Signal(Signal::read(s, at)),
            Kind::Joint => Record::Joint(Joint::read(s, at)),
            Kind::Siding => Record::Siding(Siding::read(s, at)),
        }
    }
}
