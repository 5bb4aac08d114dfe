// The verdict of a pair.
ghost use Rattle.std.specs.Prelude.{◌≡◌, [], ◌∷◌, Ok};
ghost use Rattle.verdict.specs.Facts.{first_fault};
ghost use Rattle.x1_verdict.specs.Facts.{verdict_of};
ghost use Rattle.x2_layout.specs.inner.Bounds.{Bounded};
ghost use Rattle.x2_layout.specs.inner.Regions.{Regions};
ghost use Rattle.pair.specs.Pair.{same_station, pair_facts, pair_of};

use crate::spots::records_pair;
use envelope::{HEADER, STATION};
use tables::{number_of, place_of};
use verdict::{File, Mark, PairFault, Reason, Rule, fact};
use x2_layout::{Layout, layout_of};

// How many bytes a station has.
const STATION_SIZE: usize = 2;

// The stations are the same.
fn same_station(f: &[u8], g: &[u8]) -> Result<(), Mark>
    ensures { result ≡ first_fault (same_station f.now g.now ∷ []) }
{
    let first = number_of(f, HEADER, STATION);
    let second = number_of(g, HEADER, STATION);
    let rule = Rule::SameStation;
    fact(
        second == first,
        Reason::Station,
        HEADER as usize,
        place_of(HEADER, STATION),
        STATION_SIZE,
        rule,
    )
}

// The facts of a pair of files that are each accepted.
#[tactic(auto, using(verdict::proofs::Facts::accepted_first, verdict::proofs::Facts::refused_first), unfolding(crate::specs::Pair::pair_facts, verdict::specs::Facts::first_fault))]
fn check_pair(f: &[u8], g: &[u8], l: Layout) -> Result<(), Mark>
    requires { (verdict_of f.now ≡ Ok tt) × Bounded l × Regions g.now l }
    ensures { result ≡ first_fault (pair_facts f.now g.now l) }
{
    same_station(f, g)?;
    records_pair(f, g, l)
}

// The verdict of a pair: X.1's own fault, X.2's, and then the pair's, which is of file 2.
#[tactic(auto, unfolding(crate::specs::Pair::pair_of))]
pub fn pair_verdict(first: &[u8], second: &[u8]) -> Result<(), PairFault>
    ensures { result ≡ pair_of first.now second.now }
{
    let v = x1_verdict::verdicts::verdict_of(first);
    let Ok(()) = v else {
        return Err(PairFault {
            file: File::First,
            fault: v.unwrap_err(),
        });
    };
    let w = x2_verdict::verdict_of(second);
    let Ok(()) = w else {
        return Err(PairFault {
            file: File::Second,
            fault: w.unwrap_err(),
        });
    };
    Ok(check_pair(first, second, layout_of(second))?)
}
