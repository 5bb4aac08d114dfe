// What is asked of a lister, and how its answer is settled (01, 'Routes'): 13 for a question out of range, 14 where the walks outnumber the
// budget, 15 where the list has no room. Both listers settle by this.
ghost use Rattle.std.specs.Prelude.{◌≡◌, true, ltb};
ghost use Rattle.route_walks.specs.Lent.{room_of};
ghost use Rattle.route_walks.specs.Range.{Bounds};
ghost use Rattle.route_lister.specs.inner.Ready.{PassedOver};
ghost use Rattle.route_lister.specs.Answered.{limit_of, in_range, judged, answer_in, left_in};

use crate::DEFAULT_LIMIT;
use route_graph::boundary_at;
use route_walks::{BUDGET_LEAST, BUDGET_MOST, LIMIT_LEAST, LIMIT_MOST, Tally, WORD_SIZE};
use verdict::{Fault, Reason, refusal};
use x2_layout::Layout;

// The limit that is meant.
fn limit_of(limit: usize) -> usize
    ensures { result ≡ limit_of limit }
{
    if limit == 0 { DEFAULT_LIMIT } else { limit }
}

// Whether a question is in range; `asked`: it starts at a boundary.
fn in_range(asked: bool, limit: usize, budget: usize) -> bool
    ensures { result ≡ in_range asked limit budget }
{
    asked
        & ((LIMIT_LEAST <= limit)
            & ((limit <= LIMIT_MOST) & ((BUDGET_LEAST <= budget) & (budget <= BUDGET_MOST))))
}

// The answer to a question in range whose walks are counted, with room for as many words.
fn settled(counted: Tally, budget: usize, room: usize) -> Result<Tally, Fault>
    ensures { result ≡ judged true (ltb budget counted.walks) (ltb room counted.words) counted }
{
    if budget < counted.walks {
        return Err(refusal(Reason::Steps));
    }
    if room < counted.words {
        return Err(refusal(Reason::Room));
    }
    Ok(counted)
}

// A lister, by its pass over the partial walks from the boundary `start`: it counts them, and stores the words of the routes as far as there is room.
pub trait Lister {
    fn pass(f: &[u8], l: Layout, start: u16, limit: usize, budget: usize, out: &mut [u8]) -> Tally
        requires { Bounds limit budget }
        ensures { PassedOver f.now l start limit budget result out.old out.new };
}

// Every route from the boundary `start`, by a lister. The first pass is lent no byte and counts.
pub fn list_by<L: Lister>(
    f: &[u8],
    l: Layout,
    start: usize,
    limit: usize,
    budget: usize,
    out: &mut [u8],
) -> Result<Tally, Fault>
    ensures answered { result ≡ answer_in f.now l start limit budget (room_of out.old) }
    ensures written { out.new ≡ left_in f.now l start limit budget out.old }
{
    let most = limit_of(limit);
    let asked = boundary_at(l, start);
    if !in_range(asked, most, budget) {
        return Err(refusal(Reason::Question));
    }
    let at = start as u16;
    let none = 0;
    let counted = L::pass(f, l, at, most, budget, &mut out[..none]);
    settled(counted, budget, out.len() / WORD_SIZE)?;
    Ok(L::pass(f, l, at, most, budget, out))
}
