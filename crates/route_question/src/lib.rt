// The question 'routes' about an X.2 file (01, 'A question ..' and 'Routes'): first the file's own fault, then 13, 14 and 15, else every
// route from a boundary. Either of the two listers finds them (02, ticket 12), and what is answered and left is the same.
#![tactic(auto)]

ghost use Rattle.std.specs.Prelude.{◌≡◌};
ghost use Rattle.route_walks.specs.Lent.{room_of};
ghost use Rattle.route_question.specs.Routes.{routes_asked, left_asked};

use route_lister::{list, list_flat};
use route_walks::Tally;
use verdict::Fault;
use x2_layout::layout_of;
use x2_verdict::verdict_of;

// Which lister finds the routes.
#[derive(Clone, Copy)]
pub enum Engine {
    // the one whose functions call each other
    First,
    // the one that holds the open choices in an array
    Second,
}

// The routes from a boundary, in the bytes lent: two for each word, low byte first.
// Stays (2): `routes` and `routes_flat` are two calls each; one generic function over a lister takes a trait and two `impl` blocks besides. And
// `routes_flat` may reach no function that calls itself (02, ticket 12), so it does not go through `routes_by`.
pub fn routes(
    f: &[u8],
    start: usize,
    limit: usize,
    budget: usize,
    out: &mut [u8],
) -> Result<Tally, Fault>
    ensures value { result ≡ routes_asked f.now start limit budget (room_of out.old) }
    ensures out_after { out.new ≡ left_asked f.now start limit budget out.old }
{
    // The form is 01's: the verdict is taken apart by let .. else, and its fault is returned at once.
    let v = verdict_of(f);
    let Ok(()) = v else {
        return Err(v.unwrap_err());
    };
    list(f, layout_of(f), start, limit, budget, out)
}

// The same, by the second lister, whose stack does not grow with the yard.
pub fn routes_flat(
    f: &[u8],
    start: usize,
    limit: usize,
    budget: usize,
    out: &mut [u8],
) -> Result<Tally, Fault>
    ensures value { result ≡ routes_asked f.now start limit budget (room_of out.old) }
    ensures out_after { out.new ≡ left_asked f.now start limit budget out.old }
{
    // The form is 01's: the verdict is taken apart by let .. else, and its fault is returned at once.
    let v = verdict_of(f);
    let Ok(()) = v else {
        return Err(v.unwrap_err());
    };
    list_flat(f, layout_of(f), start, limit, budget, out)
}

// The same, by the lister that is named.
// Stays (7): a closure in place of the name would make this generic, and a generic function cannot have its theorem in crate `promises`
// (`routes_by_determined`: what the contract allows is one answer).
pub fn routes_by(
    engine: Engine,
    f: &[u8],
    start: usize,
    limit: usize,
    budget: usize,
    out: &mut [u8],
) -> Result<Tally, Fault>
    ensures value { result ≡ routes_asked f.now start limit budget (room_of out.old) }
    ensures out_after { out.new ≡ left_asked f.now start limit budget out.old }
{
    match engine {
        Engine::First => routes(f, start, limit, budget, out),
        Engine::Second => routes_flat(f, start, limit, budget, out),
    }
}
