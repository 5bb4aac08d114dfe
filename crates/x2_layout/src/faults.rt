// The layout faults of X.2: 6 in 01's table, in the order of 'Layout faults'.
ghost use Rattle.std.specs.Prelude.{◌≡◌, ◌≤◌};
ghost use Rattle.verdict.specs.Facts.{first_fault};
ghost use Rattle.x2_layout.specs.inner.Bounds.{count_most, header_most, bounds_most, Small};
ghost use Rattle.x2_layout.specs.Facts.{count_layout, offsets_layout, layout_facts, shape_of};

use crate::groups::check_groups;
use crate::numbers::{layout_of, yard_offsets};
use crate::{COUNT_MOST, ENTRY_OFFSET, ENTRY_SIZE, Layout, START_COUNT, START_ENTRIES};
use envelope::HEADER;
use octets::Width;
use rules::{between, fits, is_number};
use tables::{number_between, place_of};
use verdict::{Mark, Reason};
use x2_records::Boundary;

// The counts: n is not 0 and k's place is below End; k is not 0 and the boundaries fit.
fn counts_layout(f: &[u8], l: Layout) -> Result<(), Mark>
    requires { Small l }
    ensures { result ≡ first_fault (count_layout f.now l) }
{
    let start_count = place_of(HEADER, START_COUNT);
    let end_count = START_ENTRIES + ENTRY_SIZE * l.n;
    number_between(f, Reason::Layout, HEADER, START_COUNT, 1, COUNT_MOST)?;
    fits(0, start_count, 1, end_count + 1, start_count, l.end, l.end)?;
    between(f, Reason::Layout, 0, end_count, Width::One, 1, COUNT_MOST)?;
    fits(0, end_count, 1, l.turnouts, end_count, l.end, l.end)
}

// The offsets in so many entries from a place on: each boundary stands where it is due.
fn offsets_layout(f: &[u8], entries: usize, count: usize, due: usize) -> Result<(), Mark>
    requires { (entries ≤ header_most) × (count ≤ count_most) × (due ≤ bounds_most) }
    ensures { result ≡ first_fault (offsets_layout f.now entries due count) }
{
    let width = ENTRY_OFFSET.1;
    // Stays (3): the index gives the entry and what is due there; `?` ends it.
    for i in 0..count {
        let entry = (entries + ENTRY_SIZE * i) as u32;
        let place = place_of(entry, ENTRY_OFFSET);
        is_number(f, Reason::Layout, 0, place, width, due + Boundary::SIZE * i)?;
    }
    Ok(())
}

// The layout.
fn check_layout(f: &[u8], l: Layout) -> Result<(), Mark>
    requires { Small l }
    ensures { result ≡ first_fault (layout_facts f.now l) }
{
    let end_entries = START_ENTRIES + ENTRY_SIZE * l.n + 1;
    let o = yard_offsets(end_entries + ENTRY_SIZE * l.k, l.end);
    counts_layout(f, l)?;
    offsets_layout(f, START_ENTRIES, l.n, l.starts)?;
    offsets_layout(f, end_entries, l.k, l.ends)?;
    check_groups(f, o, l.turnouts, l.turnouts - Boundary::SIZE)
}

// The layout of a file, or its first fault.
#[tactic(auto, unfolding(verdict::specs::Facts::first_fault, crate::specs::Facts::shape_of, crate::specs::Facts::shaped))]
pub fn find_layout(f: &[u8]) -> Result<Layout, Mark>
    ensures { result ≡ shape_of f.now }
{
    let l = layout_of(f);
    check_layout(f, l)?;
    Ok(l)
}
