// The first pass over the records of a file whose layout is right: whether each obeys by its fields and agrees, kind by kind in stored
// order. On the way each place that a link may name is marked. It stops at the first record that does not obey.
ghost use Rattle.std.specs.Prelude.{◌≡◌, ◌/◌, ◌≤◌, length, get_or, set, IfSome};
ghost use Rattle.x2_records.specs.declared.Kind.TheVariants as kind;
ghost use Rattle.x2_layout.specs.inner.Bounds.{place_most, Bounded};
ghost use Rattle.x2_layout.specs.inner.Regions.{Regions};
ghost use Rattle.x2_links.specs.inner.Marks.{cell, cells, mark_if, Blank};
ghost use Rattle.x2_verdict.specs.inner.Passes.{Sort, Passing, AllPassed};

use crate::balise_pass::{fixed_passes, group_passes, leads, message_passes};
use crate::inside::byte_of;
use crate::kind_passes::{EndBoundaries, StartBoundaries, kind_pass};
use x2_layout::Layout;
use x2_links::{CELL, CELLS, mark_if};
use x2_records::{Balise, Joint, Siding, Signal, Turnout};

// Marks the place of a balise where it is the first of its group. The cell of another stays as it is: 0.
fn mark_lead(first: bool, at: usize, marks: &mut [u8; CELLS])
    requires { (at ≤ place_most) × (get_or marks.old (at / cell) 0 ≡ 0) }
    ensures { marks.new ≡ set marks.old (at / cell) (mark_if first at) }
{
    if first {
        marks[at / CELL] = mark_if(true, at);
    }
}

// The balises, in a loop of their own, which is quicker: it asks once whether all of them lie inside the file.
fn balises_obey(
    f: &[u8],
    l: Layout,
    from: usize,
    until: usize,
    before: u32,
    marks: &mut [u8; CELLS],
) -> Option<u32>
    requires { Bounded l × Sort l kind.Balise from until × Passing f.now l marks.old before from }
    ensures { IfSome result (λ last. Passing f.now l marks.new last until) }
{
    let mut last = before;
    let mut at = from;
    if f.len() < until {
        return None;
    }
    if until < Balise::SIZE {
        return None;
    }
    let most = until - Balise::SIZE;
    // Stays (3): no plainer; a step is the size of the balise just read, which no range counts by, and an iterator of our own is longer.
    while at <= most {
        if !fixed_passes(f, at) {
            return None;
        }
        if !group_passes(f, from, last, at) {
            return None;
        }
        mark_lead(leads(f, at), at, marks);
        last = at as u32;
        let size = byte_of(f, at, Balise::SIZE_BYTE);
        if size <= Balise::SIZE {
            at = at + Balise::SIZE;
        } else {
            if !message_passes(f, at, size, until) {
                return None;
            }
            at = at + size;
        }
    }
    if at != until {
        return None;
    }
    Some(last)
}

// Every record obeys by its fields and agrees; every place that a link may name is then marked.
pub fn records_pass(f: &[u8], l: Layout, marks: &mut [u8; CELLS]) -> Option<()>
    requires { Bounded l × Regions f.now l × (length marks.old ≡ cells) × Blank marks.old }
    ensures { IfSome result (λ _. AllPassed f.now l marks.new) }
{
    let starts = kind_pass::<StartBoundaries>(f, l, l.starts, l.ends, 0, marks)?;
    let ends = kind_pass::<EndBoundaries>(f, l, l.ends, l.turnouts, starts, marks)?;
    let turnouts = kind_pass::<Turnout>(f, l, l.turnouts, l.balises, ends, marks)?;
    let balises = balises_obey(f, l, l.balises, l.signals, turnouts, marks)?;
    let signals = kind_pass::<Signal>(f, l, l.signals, l.joints, balises, marks)?;
    let joints = kind_pass::<Joint>(f, l, l.joints, l.sidings, signals, marks)?;
    kind_pass::<Siding>(f, l, l.sidings, l.end, joints, marks)?;
    Some(())
}
