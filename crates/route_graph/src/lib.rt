// What stands at a place of a fixed application file, as far as its links go (01, 'X.2, fixed application' and 'Routes'): the file as a
// graph. The kind follows from the region that the place lies in, and a number past the end of the file counts as 0, so everything here
// answers for every file, every layout and every place.
#![tactic(auto)]

ghost use Rattle.std.specs.Prelude.{◌≡◌, length, get_or};
ghost use Rattle.octets.specs.Octets.{num_at};
ghost use Rattle.route_graph.specs.Objects.{link_at, view_of, view_at, object_at, boundary_starts, links_of, edge_link, is_boundary};
ghost use Rattle.route_graph.specs.Ways.{onward_of};

use octets::{byte_at, u16_at};
use tables::place_of;
use x2_layout::{Layout, kind_at};
use x2_records::{Boundary, Kind, Links, Turnout};

mod regions;

pub use regions::{Ends, ends_of, kind_in, object_in};

// The links of a balise, a signal or a joint, which are plain objects.
#[derive(Clone, Copy)]
pub struct PlainLinks {
    pub previous: u16,
    pub next: u16,
}

// The links of a turnout, and its number, by which its lie is told.
#[derive(Clone, Copy)]
pub struct TurnoutLinks {
    pub number: u8,
    pub front: u16,
    pub normal: u16,
    pub reverse: u16,
}

// What stands at a place. A link of 0 is none.
// Stays (1): 0 is a link that names nothing in the paper's own words, and in the definition `Follows` of crate route_walks, whose edit `link_1_ends` is refused.
#[derive(Clone, Copy)]
pub enum Object {
    // a boundary, with its link
    Boundary(u16),
    Plain(PlainLinks),
    Turnout(TurnoutLinks),
    // a siding, which has no links
    Nothing,
}

// The highest offset in a file.
pub const OFFSET_MOST: usize = 65535;

impl PlainLinks {
    // The link by which the object is left where it was entered from `from`.
    pub fn onward(self, from: u16) -> u16
        ensures { result ≡ onward_of self from }
    {
        if self.previous == from {
            self.next
        } else {
            self.previous
        }
    }
}

impl Object {
    // The link by which a boundary is left; 0 for any other object.
    pub fn edge_link(self) -> u16
        ensures { result ≡ edge_link self }
    {
        match self {
            Object::Boundary(link) => link,
            _ => 0,
        }
    }

    // How many links it has.
    pub fn link_count(self) -> usize
        ensures { result ≡ length (links_of self) }
    {
        match self {
            Object::Boundary(_) => 1,
            Object::Plain(_) => 2,
            Object::Turnout(_) => 3,
            Object::Nothing => 0,
        }
    }

    // The link of an index, from 0 in the order of its fields; 0 where it has no such link.
    pub fn link(self, index: usize) -> u16
        ensures { result ≡ get_or (links_of self) index 0 }
    {
        match self {
            Object::Boundary(link) => pick(&[link], index),
            Object::Plain(p) => pick(&[p.previous, p.next], index),
            Object::Turnout(t) => pick(&[t.front, t.normal, t.reverse], index),
            Object::Nothing => 0,
        }
    }

    // Whether it is a boundary.
    pub fn is_boundary(self) -> bool
        ensures { result ≡ is_boundary self }
    {
        matches!(self, Object::Boundary(_))
    }
}

// The link of an index; 0 after the last.
fn pick(links: &[u16], index: usize) -> u16
    ensures { result ≡ get_or links.now index 0 }
{
    links.get(index).copied().unwrap_or(0)
}

// The number at a place of one byte.
fn number_at(f: &[u8], p: usize) -> u8
    ensures { result ≡ num_at 1 f.now p }
{
    byte_at(f, p) as u8
}

// The link at a place.
fn link_at(f: &[u8], p: usize) -> u16
    ensures { result ≡ link_at f.now p }
{
    u16_at(f, p) as u16
}

// The object at a place whose links stand at some places: a boundary has one, a plain object two, a turnout three.
pub fn view(f: &[u8], at: u32, links: Links) -> Object
    ensures { result ≡ view_of f.now at links }
{
    match links {
        Links::Nothing => Object::Nothing,
        Links::One(p) => Object::Boundary(link_at(f, p)),
        Links::Two(p, q) => Object::Plain(PlainLinks {
            previous: link_at(f, p),
            next: link_at(f, q),
        }),
        Links::Three(p, q, r) => Object::Turnout(TurnoutLinks {
            number: number_at(f, place_of(at, Turnout::NUMBER)),
            front: link_at(f, p),
            normal: link_at(f, q),
            reverse: link_at(f, r),
        }),
    }
}

// The record of a kind that starts at a place.
#[inline(always)]
fn record_at(f: &[u8], k: Kind, at: u16) -> Object
    ensures { result ≡ view_at f.now k at }
{
    let at = u32::from(at);
    view(f, at, k.links(at))
}

// The object that starts at a place.
pub fn object_at(f: &[u8], l: Layout, at: u16) -> Object
    ensures { result ≡ object_at f.now l at }
{
    record_at(f, kind_at(l, usize::from(at)), at)
}

// Whether a boundary starts at a place.
pub fn boundary_at(l: Layout, at: usize) -> bool
    ensures { result ≡ boundary_starts l at }
{
    let header = l.starts;
    if OFFSET_MOST < at {
        return false;
    }
    if at < header {
        return false;
    }
    if l.turnouts <= at {
        return false;
    }
    (at - header) % Boundary::SIZE == 0
}
