// Which places a link may name, filled once for the whole file: the places of a file in cells of eight, a byte for each cell. Every record
// has more than eight bytes, so at most one starts in a cell; the byte says at which place of the cell, if that record may be linked to. A
// link's target is then known at once, however many balises there are.
ghost use Rattle.std.specs.Prelude.{◌≡◌, length};
ghost use Rattle.verdict.specs.Facts.{test};
ghost use Rattle.x2_layout.specs.inner.Bounds.{Bounded};
ghost use Rattle.x2_links.specs.Links.{linkable};
ghost use Rattle.x2_links.specs.inner.Marks.{cells, mark_of, mark_if, mark_at, Blank, Targets};

use tables::{bits_of, number_of};
use x2_layout::{Layout, kind_at, size_of};
use x2_records::{Balise, Kind};

// How many places a cell has, and how many cells hold all places of a file.
pub const CELL: usize = 8;

pub const CELLS: usize = 8192;

// Of balises only the first of its group is linked to.
fn is_first(f: &[u8], at: u32) -> bool
    ensures { result ≡ test (linkable f.now Kind.Balise at) }
{
    bits_of(number_of(f, at, Balise::GROUP), Balise::RANK) == 0
}

// Whether the record of a kind at a place may be linked to.
pub fn may_link(f: &[u8], k: Kind, at: u32) -> bool
    ensures { result ≡ test (linkable f.now k at) }
{
    match k {
        Kind::Balise => is_first(f, at),
        Kind::Siding => false,
        _ => true,
    }
}

// The mark of a place: which one of its cell it is, counted from 1.
fn mark_of(x: usize) -> u8
    ensures { result ≡ mark_of x }
{
    (x % CELL + 1) as u8
}

// The mark of a place where a link may name it, else 0.
pub fn mark_if(b: bool, x: usize) -> u8
    ensures { result ≡ mark_if b x }
{
    if b { mark_of(x) } else { 0 }
}

// Marks each place that a link may name.
pub fn mark_targets(f: &[u8], l: Layout, marks: &mut [u8; CELLS])
    requires { Bounded l × (length marks.old ≡ cells) × Blank marks.old }
    ensures { Targets f.now l marks.new }
{
    let end = l.end;
    let mut at = l.starts;
    // Stays (3): no plainer; a step is the size of the record just read, which no range counts by, and an iterator of our own is longer.
    while at < end {
        let k = kind_at(l, at);
        let mark = mark_if(may_link(f, k, at as u32), at);
        marks[at / CELL] = mark;
        at = at + size_of(f, k, at);
    }
}

// Whether a link may name x.
pub fn is_target(marks: &[u8; CELLS], x: u16) -> bool
    ensures { result ≡ mark_at marks.now x }
{
    let place = x as usize;
    marks[place / CELL] == mark_of(place)
}
