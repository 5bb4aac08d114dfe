// The targets of the links: 8 in 01's table.
ghost use Rattle.std.specs.Prelude.{◌≡◌, [], ◌∷◌};
ghost use Rattle.verdict.specs.Facts.{all_tests, first_fault};
ghost use Rattle.x2_records.specs.Records.{places_in};
ghost use Rattle.x2_layout.specs.inner.Bounds.{Bounded, if_bounded};
ghost use Rattle.x2_links.specs.Links.{target, linked, targets, record_targets, target_facts};
ghost use Rattle.x2_links.specs.inner.Marks.{Targets};

use crate::marks::{CELLS, is_target, mark_targets};
use envelope::NUMBER_MOST;
use octets::u16_at;
use tables::{lies_between, number_between};
use verdict::{Mark, Reason, Rule, fact};
use x2_layout::{Layout, is_bounded, kind_at, size_of};
use x2_records::{Boundary, Kind, LINK_SIZE, Links};

// The link at p, of the record at `at`, is 0, or names a record that it may, and not its own.
fn target_obeys(f: &[u8], l: Layout, marks: &[u8; CELLS], at: u32, p: usize) -> bool
    requires { Targets f.now l marks.now }
    ensures { result ≡ all_tests (target f.now l at p ∷ []) }
{
    let x = u16_at(f, p);
    (x == 0) | ((x != at as usize) & is_target(marks, x as u16))
}

// The same, as a fact.
fn target_fact(f: &[u8], l: Layout, marks: &[u8; CELLS], at: u32, p: usize) -> Result<(), Mark>
    requires { Targets f.now l marks.now }
    ensures { result ≡ first_fault (target f.now l at p ∷ []) }
{
    let ok = target_obeys(f, l, marks, at, p);
    let rule = Rule::NamesObject;
    fact(ok, Reason::Target, at as usize, p, LINK_SIZE, rule)
}

// A boundary has a link.
fn is_linked(f: &[u8], k: Kind, at: u32) -> bool
    ensures { result ≡ all_tests (linked f.now k at) }
{
    match k {
        Kind::StartBoundary | Kind::EndBoundary => {
            lies_between(f, at, Boundary::LINK, 1, NUMBER_MOST)
        }
        _ => true,
    }
}

// 0 means no link; in a boundary it is 8.
// Stays (2): the walk over the records asks the test first, which is quicker than the facts, and the facts only where it fails.
fn has_link(f: &[u8], k: Kind, at: u32) -> Result<(), Mark>
    ensures { result ≡ first_fault (linked f.now k at) }
{
    match k {
        Kind::StartBoundary | Kind::EndBoundary => {
            number_between(f, Reason::Target, at, Boundary::LINK, 1, NUMBER_MOST)
        }
        _ => Ok(()),
    }
}

// The targets of a record's links obey.
fn link_targets_obey(f: &[u8], l: Layout, marks: &[u8; CELLS], at: u32, links: Links) -> bool
    requires { Targets f.now l marks.now }
    ensures { result ≡ all_tests (targets f.now l at (places_in links)) }
{
    match links {
        Links::Nothing => true,
        Links::One(p) => target_obeys(f, l, marks, at, p),
        Links::Two(p, q) => target_obeys(f, l, marks, at, p) & target_obeys(f, l, marks, at, q),
        Links::Three(p, q, r) => {
            target_obeys(f, l, marks, at, p)
                & (target_obeys(f, l, marks, at, q) & target_obeys(f, l, marks, at, r))
        }
    }
}

// The same, as facts.
// Stays (2): the walk over the records asks the test first, which is quicker than the facts, and the facts only where it fails.
fn link_targets(f: &[u8], l: Layout, marks: &[u8; CELLS], at: u32, links: Links) -> Result<(), Mark>
    requires { Targets f.now l marks.now }
    ensures { result ≡ first_fault (targets f.now l at (places_in links)) }
{
    match links {
        Links::Nothing => Ok(()),
        Links::One(p) => target_fact(f, l, marks, at, p),
        Links::Two(p, q) => {
            target_fact(f, l, marks, at, p)?;
            target_fact(f, l, marks, at, q)
        }
        Links::Three(p, q, r) => {
            target_fact(f, l, marks, at, p)?;
            target_fact(f, l, marks, at, q)?;
            target_fact(f, l, marks, at, r)
        }
    }
}

// The targets of one record's links obey.
fn record_targets_obey(f: &[u8], l: Layout, marks: &[u8; CELLS], k: Kind, at: u32) -> bool
    requires { Targets f.now l marks.now }
    ensures { result ≡ all_tests (record_targets f.now l k at) }
{
    is_linked(f, k, at) & link_targets_obey(f, l, marks, at, k.links(at))
}

// The same, as facts.
// Stays (2): the walk over the records asks the test first, which is quicker than the facts, and the facts only where it fails.
fn record_targets(f: &[u8], l: Layout, marks: &[u8; CELLS], k: Kind, at: u32) -> Result<(), Mark>
    requires { Targets f.now l marks.now }
    ensures { result ≡ first_fault (record_targets f.now l k at) }
{
    has_link(f, k, at)?;
    link_targets(f, l, marks, at, k.links(at))
}

// The targets of every record's links: those of the first record that does not obey are the verdict.
fn all_targets(f: &[u8], l: Layout, marks: &[u8; CELLS]) -> Result<(), Mark>
    requires { Targets f.now l marks.now × Bounded l }
    ensures { result ≡ first_fault (target_facts f.now l) }
{
    let end = l.end;
    let mut at = l.starts;
    // Stays (3): no plainer; a step is the size of the record just read, which no range counts by, and an iterator of our own is longer.
    while at < end {
        let k = kind_at(l, at);
        if !record_targets_obey(f, l, marks, k, at as u32) {
            return record_targets(f, l, marks, k, at as u32);
        }
        at = at + size_of(f, k, at);
    }
    Ok(())
}

// The targets of all links. A layout that no file has is not looked at.
pub fn check_targets(f: &[u8], l: Layout) -> Result<(), Mark>
    ensures { result ≡ first_fault (if_bounded l (target_facts f.now l)) }
{
    if !is_bounded(l) {
        return Ok(());
    }
    // Stays (6): fixed room on the stack, since a library crate uses no heap (project rule).
    let mut marks = [0u8; CELLS];
    mark_targets(f, l, &mut marks);
    all_targets(f, l, &marks)
}
