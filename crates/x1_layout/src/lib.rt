// The layout of X.1 (01, 'Layout' and 'Layout faults in X.1'): 6 in 01's table.
#![tactic(auto, unfolding(verdict::specs::Facts::first_fault))]

ghost use Rattle.std.specs.Prelude.{◌≡◌, ◌+◌, ◌-◌, ◌≤◌};
ghost use mathlib.Core.List.{[], ◌∷◌, flat_map};
ghost use Rattle.octets.specs.Octets.{bytes_of};
ghost use Rattle.verdict.specs.Facts.{all_tests, first_fault};
ghost use Rattle.rules.specs.Rules.{fits};
ghost use Rattle.x1_records.specs.Places.{entry_size};
ghost use Rattle.x1_layout.specs.Layout.{size_of, points_at, points_most, is_first, stop_before, due_at, spread, entry_layout, entries, layout_facts};

use envelope::{HEADER, end_of, structure_of};
use rules::{ends_at, fits, rest, whole};
use tables::{Field, number_between, number_is, number_of, place_of};
use verdict::{Mark, Reason};
use x1_records::{COUNT, ENTRIES, Track, point_size};

// The size of a file's points.
pub fn size_of(f: &[u8]) -> u8
    ensures { result ≡ size_of f.now }
{
    point_size(structure_of(f))
}

// Where the entries end and the points start.
pub fn points_at(f: &[u8]) -> u32
    ensures value { result ≡ points_at f.now }
    ensures upper_bound { result ≤ points_most }
{
    ENTRIES + Track::SIZE as u32 * number_of(f, HEADER, COUNT) as u32
}

// The entry at e is the first one.
pub fn is_first(e: u32) -> bool
    ensures { result ≡ is_first e }
{
    e < ENTRIES + Track::SIZE as u32
}

// Where the entry starts that ends at e; 0 where none has room before e.
pub fn entry_before(e: u32) -> u32
    ensures { result ≡ e - entry_size }
{
    e.saturating_sub(Track::SIZE as u32)
}

// Where the points end of the track whose entry ends at e.
fn stop_before(f: &[u8], size: u8, e: u32) -> usize
    ensures { result ≡ stop_before f.now size e }
{
    number_of(f, entry_before(e), Track::LAST) + size as usize
}

// Where the points of the entry at e are due.
#[tactic(auto, unfolding(crate::specs::Layout::due_at))]
fn due_at(f: &[u8], size: u8, e: u32) -> usize
    ensures { result ≡ due_at f.now size e }
{
    if is_first(e) {
        return points_at(f) as usize;
    }
    stop_before(f, size, e)
}

// What ends at `reach`, which the field tells, is not beyond End; a fault is at the field.
fn ends_by(at: u32, k: Field, reach: usize, end: usize) -> Result<(), Mark>
    ensures { result ≡ first_fault (fits at (at + k.0) (bytes_of k.1) reach (at + k.0) end end ∷ []) }
{
    let width = k.1;
    let place = place_of(at, k);
    fits(at as usize, place, width.bytes(), reach, place, end, end)
}

// The last offset of the entry at e is its first plus a positive multiple of the size.
fn spreads(f: &[u8], size: u8, e: u32) -> Result<(), Mark>
    ensures { result ≡ first_fault (spread f.now size e) }
{
    let first = number_of(f, e, Track::FIRST);
    let last = number_of(f, e, Track::LAST);
    let step = size as usize;
    let start = e as usize;
    let from = place_of(e, Track::FIRST);
    let place = place_of(e, Track::LAST);
    let width = Track::LAST.1;
    let bytes = width.bytes();
    fits(start, place, bytes, first + step, from, last, place)?;
    whole(start, place, bytes, last.saturating_sub(first), step, from)
}

// The offsets of the entry at e are what the layout asks.
fn offsets_obey(f: &[u8], size: u8, e: u32) -> bool
    ensures { result ≡ all_tests (entry_layout f.now size e) }
{
    let first = number_of(f, e, Track::FIRST);
    let last = number_of(f, e, Track::LAST);
    let step = size as usize;
    let due = first == due_at(f, size, e);
    let above = first + step <= last;
    let apart = rest(last.saturating_sub(first), step) == 0;
    let inside = last + step <= end_of(f);
    due & (above & (apart & inside))
}

// The same, as facts.
fn entry_layout(f: &[u8], size: u8, e: u32) -> Result<(), Mark>
    ensures { result ≡ first_fault (entry_layout f.now size e) }
{
    let last = number_of(f, e, Track::LAST);
    number_is(f, Reason::Layout, e, Track::FIRST, due_at(f, size, e))?;
    spreads(f, size, e)?;
    ends_by(e, Track::LAST, last + size as usize, end_of(f))
}

// The offsets of every entry: those of the first entry that does not obey are the verdict.
fn entries_layout(f: &[u8], size: u8) -> Result<(), Mark>
    ensures { result ≡ first_fault (flat_map (entry_layout f.now size) (entries f.now)) }
{
    let points = points_at(f);
    for e in (ENTRIES..points).step_by(Track::SIZE as usize) {
        if !offsets_obey(f, size, e) {
            return entry_layout(f, size, e);
        }
    }
    Ok(())
}

// The layout.
#[tactic(auto, using(verdict::proofs::Facts::accepted_first, verdict::proofs::Facts::refused_first), unfolding(crate::specs::Layout::layout_facts, verdict::specs::Facts::first_fault))]
pub fn check_layout(f: &[u8], size: u8) -> Result<(), Mark>
    ensures { result ≡ first_fault (layout_facts f.now size) }
{
    let end = end_of(f);
    let points = points_at(f);
    number_between(f, Reason::Layout, HEADER, COUNT, 1, 255)?;
    ends_by(HEADER, COUNT, points as usize, end)?;
    entries_layout(f, size)?;
    let last = number_of(f, entry_before(points), Track::LAST);
    ends_at(last, last + size as usize, end)
}
