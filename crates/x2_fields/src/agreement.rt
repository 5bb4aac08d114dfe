// The agreement of X.2: 7 in 01's table.
ghost use Rattle.std.specs.Prelude.{◌≡◌, [], ◌∷◌, ◌≤◌};
ghost use Rattle.verdict.specs.Facts.{test, all_tests, first_fault};
ghost use Rattle.x2_layout.specs.inner.Bounds.{count_most, place_most, header_most, Bounded, if_bounded};
ghost use Rattle.x2_layout.specs.Records.{each_after};
ghost use Rattle.x2_fields.specs.Agreement.{entries_agree, rank_in_count, goes_before, in_sequence, kind_agrees, agreement_facts};

use rules::same_as;
use tables::{number_of, place_of};
use verdict::{Mark, Reason, Rule, fact};
use x2_layout::{ENTRY_SIZE, ENTRY_TRACK, Layout, START_ENTRIES, is_bounded, kind_at, size_of};
use x2_records::{Balise, Boundary, Kind};

// The tracks in so many entries are those of the boundaries from a place on.
pub fn entries_agree(f: &[u8], entries: usize, from: usize, count: usize) -> Result<(), Mark>
    requires { (entries ≤ header_most) × (from ≤ place_most) × (count ≤ count_most) }
    ensures { result ≡ first_fault (entries_agree f.now entries from count) }
{
    let width = ENTRY_TRACK.1;
    // Stays (3): the index gives the entry and the boundary; `?` ends it.
    for i in 0..count {
        let here = place_of((entries + ENTRY_SIZE * i) as u32, ENTRY_TRACK);
        let own = place_of((from + Boundary::SIZE * i) as u32, Boundary::TRACK);
        same_as(f, 0, here, width, here, own)?;
    }
    Ok(())
}

// A balise's rank, which 01 calls its place, is at most its count.
fn rank_obeys(f: &[u8], at: u32) -> bool
    ensures { result ≡ all_tests (rank_in_count f.now at ∷ []) }
{
    let byte = number_of(f, at, Balise::GROUP);
    Balise::rank_of(byte) <= Balise::count_of(byte)
}

// The same, as a fact.
fn rank_in_count(f: &[u8], at: u32) -> Result<(), Mark>
    ensures { result ≡ first_fault (rank_in_count f.now at ∷ []) }
{
    let ok = rank_obeys(f, at);
    let place = place_of(at, Balise::GROUP);
    let rule = Rule::RankInCount;
    fact(ok, Reason::Agreement, at as usize, place, 1, rule)
}

// The record of a kind at `before` is a balise of the same count and a lower rank than the balise at `at`.
#[tactic(auto, unfolding(crate::specs::Agreement::goes_before))]
fn goes_before(f: &[u8], k: Kind, before: u32, at: u32) -> bool
    ensures { result ≡ test (goes_before f.now k before at) }
{
    match k {
        Kind::Balise => {
            let there = number_of(f, before, Balise::GROUP);
            let here = number_of(f, at, Balise::GROUP);
            (Balise::count_of(there) == Balise::count_of(here))
                & (Balise::rank_of(there) < Balise::rank_of(here))
        }
        _ => false,
    }
}

// A balise is the first of its group, or in sequence after the record before it.
// Stays (5): a struct of them would be made anew at each record, to be taken apart in two of the four.
#[tactic(auto, using(crate::proofs::Checks::first_tested, crate::proofs::Checks::later_tested))]
fn sequence_obeys(f: &[u8], l: Layout, before: u32, at: u32) -> bool
    ensures { result ≡ all_tests (in_sequence f.now l before at ∷ []) }
{
    if Balise::rank_of(number_of(f, at, Balise::GROUP)) == 1 {
        return true;
    }
    let k = kind_at(l, before as usize);
    goes_before(f, k, before, at)
}

// The same, as a fact.
fn in_sequence(f: &[u8], l: Layout, before: u32, at: u32) -> Result<(), Mark>
    ensures { result ≡ first_fault (in_sequence f.now l before at ∷ []) }
{
    let ok = sequence_obeys(f, l, before, at);
    let place = place_of(at, Balise::GROUP);
    let rule = Rule::InSequence(place_of(before, Balise::GROUP));
    fact(ok, Reason::Agreement, at as usize, place, 1, rule)
}

// A record of a kind, after the one at `before`: only a balise has rules.
#[tactic(auto, unfolding(verdict::specs::Facts::first_fault, crate::specs::Agreement::kind_agrees))]
pub fn agreement_obeys(f: &[u8], l: Layout, before: u32, k: Kind, at: u32) -> bool
    ensures { result ≡ all_tests (kind_agrees f.now l before k at) }
{
    match k {
        Kind::Balise => rank_obeys(f, at) & sequence_obeys(f, l, before, at),
        _ => true,
    }
}

// The same, as facts.
// Stays (2): the walk over the records asks the test first, which is quicker than the facts, and the facts only where it fails.
#[tactic(auto, unfolding(verdict::specs::Facts::first_fault, crate::specs::Agreement::kind_agrees))]
fn kind_agrees(f: &[u8], l: Layout, before: u32, k: Kind, at: u32) -> Result<(), Mark>
    ensures { result ≡ first_fault (kind_agrees f.now l before k at) }
{
    match k {
        Kind::Balise => {
            rank_in_count(f, at)?;
            in_sequence(f, l, before, at)
        }
        _ => Ok(()),
    }
}

// Every record, with the one before it: the facts of the first that does not obey are the verdict.
// Stays (2): `x2_returns` walks the same way; one walk for both would take what is asked as a closure, with its facts as a law.
// Stays (5): a type for the bound would be opened in each of the five, a line for a line.
fn records_agree(f: &[u8], l: Layout) -> Result<(), Mark>
    requires { Bounded l }
    ensures { result ≡ first_fault (each_after f.now l (kind_agrees f.now l)) }
{
    let end = l.end;
    let mut before = 0;
    let mut at = l.starts;
    // Stays (3): each record says where the next one starts; an iterator of them would hold the same lines, and one more to make it.
    while at < end {
        let k = kind_at(l, at);
        if !agreement_obeys(f, l, before, k, at as u32) {
            return kind_agrees(f, l, before, k, at as u32);
        }
        before = at as u32;
        at = at + size_of(f, k, at);
    }
    Ok(())
}

// The tracks of the header and every record.
fn all_agree(f: &[u8], l: Layout) -> Result<(), Mark>
    requires { Bounded l }
    ensures { result ≡ first_fault (agreement_facts f.now l) }
{
    let end_entries = START_ENTRIES + ENTRY_SIZE * l.n + 1;
    entries_agree(f, START_ENTRIES, l.starts, l.n)?;
    entries_agree(f, end_entries, l.ends, l.k)?;
    records_agree(f, l)
}

// The agreement. A layout that no file has is not looked at.
// Stays (2): one function of the three would take a closure that asks for a bounded layout.
#[tactic(auto, using(x2_layout::proofs::Bounds::none_asked, x2_layout::proofs::Bounds::is_bounded, x2_layout::proofs::Bounds::all_judged))]
pub fn check_agreement(f: &[u8], l: Layout) -> Result<(), Mark>
    ensures { result ≡ first_fault (if_bounded l (agreement_facts f.now l)) }
{
    if !is_bounded(l) {
        return Ok(());
    }
    all_agree(f, l)
}
