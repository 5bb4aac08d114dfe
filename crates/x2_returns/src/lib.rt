// The returns of X.2's links, doubled links (01, 'Links') and the links of a group's later balises (02, ticket 2): check 9 of a file whose
// layout was found. The definitions are those of crate x2_links.
#![tactic(auto, unfolding(verdict::specs::Facts::first_fault))]

ghost use Rattle.std.specs.Prelude.{◌≡◌, [], ◌∷◌};
ghost use Rattle.verdict.specs.Facts.{test, all_tests, alone, first_fault};
ghost use Rattle.x2_records.specs.Records.{places_in};
ghost use Rattle.x2_layout.specs.inner.Bounds.{Bounded, if_bounded};
ghost use Rattle.x2_links.specs.Links.{some_names, return_mark, back, distinct, returns, same_link, same_links, is_member, record_returns, return_facts};

use octets::u16_at;
use tables::{bits_of, number_of, place_of};
use verdict::{Mark, Reason, Rule, fact};
use x2_layout::{Layout, is_bounded, kind_at, size_of};
use x2_records::{Balise, Kind, LINK_SIZE, Links};

// Whether one of some links names a place.
fn some_names(f: &[u8], links: Links, at: usize) -> bool
    ensures { result ≡ test (some_names f.now (places_in links) at) }
{
    match links {
        Links::Nothing => false,
        Links::One(p) => u16_at(f, p) == at,
        Links::Two(p, q) => (u16_at(f, p) == at) | (u16_at(f, q) == at),
        Links::Three(p, q, r) => {
            (u16_at(f, p) == at) | ((u16_at(f, q) == at) | (u16_at(f, r) == at))
        }
    }
}

// A rule of the link at p, of the record at `at`.
fn return_fact(ok: bool, at: u32, p: usize, rule: Rule) -> Result<(), Mark>
    ensures { result ≡ alone ok (return_mark at p rule) }
{
    fact(ok, Reason::Return, at as usize, p, LINK_SIZE, rule)
}

// The link at p, of the record at `at`, is 0, or is returned.
fn back_obeys(f: &[u8], l: Layout, at: u32, p: usize) -> bool
    ensures { result ≡ all_tests (back f.now l at p ∷ []) }
{
    let x = u16_at(f, p);
    let k = kind_at(l, x);
    let returned = some_names(f, k.links(x as u32), at as usize);
    (x == 0) | returned
}

// The same, as a fact.
fn back_fact(f: &[u8], l: Layout, at: u32, p: usize) -> Result<(), Mark>
    ensures { result ≡ first_fault (back f.now l at p ∷ []) }
{
    return_fact(back_obeys(f, l, at, p), at, p, Rule::IsReturned)
}

// The link at p, of the record at `at`, is 0, or is another one than the link at q.
fn distinct_obeys(f: &[u8], at: u32, p: usize, q: usize) -> bool
    ensures { result ≡ all_tests (distinct f.now at p q ∷ []) }
{
    let x = u16_at(f, p);
    let y = u16_at(f, q);
    (x == 0) | (y != x)
}

// The same, as a fact.
fn distinct_fact(f: &[u8], at: u32, p: usize, q: usize) -> Result<(), Mark>
    ensures { result ≡ first_fault (distinct f.now at p q ∷ []) }
{
    return_fact(distinct_obeys(f, at, p, q), at, p, Rule::NotDoubled(q))
}

// The returns of two links, the first links of a record, obey.
fn two_returns_obey(f: &[u8], l: Layout, at: u32, p: usize, q: usize) -> bool
    ensures { result ≡ all_tests (returns f.now l at [] (p ∷ q ∷ [])) }
{
    back_obeys(f, l, at, p) & (back_obeys(f, l, at, q) & distinct_obeys(f, at, q, p))
}

// The returns of a record's links obey.
fn link_returns_obey(f: &[u8], l: Layout, at: u32, links: Links) -> bool
    ensures { result ≡ all_tests (returns f.now l at [] (places_in links)) }
{
    match links {
        Links::Nothing => true,
        Links::One(p) => back_obeys(f, l, at, p),
        Links::Two(p, q) => two_returns_obey(f, l, at, p, q),
        Links::Three(p, q, r) => {
            let two = two_returns_obey(f, l, at, p, q);
            let back = back_obeys(f, l, at, r);
            two & (back & (distinct_obeys(f, at, r, p) & distinct_obeys(f, at, r, q)))
        }
    }
}

// The same, as facts.
// Stays (2): the walk over the records asks the test first, which is quicker than the facts, and the facts only where it fails.
fn link_returns(f: &[u8], l: Layout, at: u32, links: Links) -> Result<(), Mark>
    ensures { result ≡ first_fault (returns f.now l at [] (places_in links)) }
{
    match links {
        Links::Nothing => Ok(()),
        Links::One(p) => back_fact(f, l, at, p),
        Links::Two(p, q) => {
            back_fact(f, l, at, p)?;
            back_fact(f, l, at, q)?;
            distinct_fact(f, at, q, p)
        }
        Links::Three(p, q, r) => {
            back_fact(f, l, at, p)?;
            back_fact(f, l, at, q)?;
            distinct_fact(f, at, q, p)?;
            back_fact(f, l, at, r)?;
            distinct_fact(f, at, r, p)?;
            distinct_fact(f, at, r, q)
        }
    }
}

// The link at p is the link at q.
fn same_link_obeys(f: &[u8], at: u32, p: usize, q: usize) -> bool
    ensures { result ≡ all_tests (same_link f.now at p q ∷ []) }
{
    u16_at(f, p) == u16_at(f, q)
}

// The same, as a fact of the record at `at`.
fn same_link(f: &[u8], at: u32, p: usize, q: usize) -> Result<(), Mark>
    ensures { result ≡ first_fault (same_link f.now at p q ∷ []) }
{
    let ok = same_link_obeys(f, at, p, q);
    return_fact(ok, at, p, Rule::SameAs(p, q, LINK_SIZE))
}

// Both links of a balise are those of the record at `before`.
pub fn same_links_obey(f: &[u8], before: u32, at: u32) -> bool
    ensures { result ≡ all_tests (same_links f.now before at) }
{
    let p = place_of(at, Balise::PREVIOUS);
    let q = place_of(before, Balise::PREVIOUS);
    let previous = same_link_obeys(f, at, p, q);
    let s = place_of(at, Balise::NEXT);
    let t = place_of(before, Balise::NEXT);
    previous & same_link_obeys(f, at, s, t)
}

// The same, as facts.
// Stays (2): the walk over the records asks the test first, which is quicker than the facts, and the facts only where it fails.
fn same_links(f: &[u8], before: u32, at: u32) -> Result<(), Mark>
    ensures { result ≡ first_fault (same_links f.now before at) }
{
    let p = place_of(at, Balise::PREVIOUS);
    let q = place_of(before, Balise::PREVIOUS);
    same_link(f, at, p, q)?;
    let s = place_of(at, Balise::NEXT);
    let t = place_of(before, Balise::NEXT);
    same_link(f, at, s, t)
}

// A record of a kind is a balise of place above 1.
pub fn is_member(f: &[u8], k: Kind, at: u32) -> bool
    ensures { result ≡ is_member f.now k at }
{
    match k {
        Kind::Balise => bits_of(number_of(f, at, Balise::GROUP), Balise::RANK) != 0,
        _ => false,
    }
}

// The links of one record, after the one at `before`, obey.
fn record_returns_obey(f: &[u8], l: Layout, before: u32, k: Kind, at: u32) -> bool
    ensures { result ≡ all_tests (record_returns f.now l before k at) }
{
    if is_member(f, k, at) {
        return same_links_obey(f, before, at);
    }
    link_returns_obey(f, l, at, k.links(at))
}

// The same, as facts.
// Stays (2): the walk over the records asks the test first, which is quicker than the facts, and the facts only where it fails.
fn record_returns(f: &[u8], l: Layout, before: u32, k: Kind, at: u32) -> Result<(), Mark>
    ensures { result ≡ first_fault (record_returns f.now l before k at) }
{
    if is_member(f, k, at) {
        return same_links(f, before, at);
    }
    link_returns(f, l, at, k.links(at))
}

// Every record's links, with the record before it: those of the first record that does not obey are the verdict.
fn all_returns(f: &[u8], l: Layout) -> Result<(), Mark>
    requires { Bounded l }
    ensures { result ≡ first_fault (return_facts f.now l) }
{
    let end = l.end;
    let mut before = 0;
    let mut at = l.starts;
    // Stays (3): no plainer; a step is the size of the record just read, which no range counts by, and an iterator of our own is longer.
    while at < end {
        let k = kind_at(l, at);
        if !record_returns_obey(f, l, before, k, at as u32) {
            return record_returns(f, l, before, k, at as u32);
        }
        before = at as u32;
        at = at + size_of(f, k, at);
    }
    Ok(())
}

// The returns of all links. A layout that no file has is not looked at.
pub fn check_returns(f: &[u8], l: Layout) -> Result<(), Mark>
    ensures { result ≡ first_fault (if_bounded l (return_facts f.now l)) }
{
    if !is_bounded(l) {
        return Ok(());
    }
    all_returns(f, l)
}
