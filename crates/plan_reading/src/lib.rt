// A plan, read line by line (docs/PLAN.md): the start that holds, the routes of the lines above, and what the next line says with them.
#![tactic(auto)]

ghost use Rattle.std.specs.Prelude.{◌≡◌, suc, ◌+◌, ◌≤◌, ◌<◌, length};
ghost use Rattle.plan_lines.specs.Lines.{route_most};
ghost use Rattle.plan_reading.specs.Reading.{is_elsewhere, laid, wrong_by, route_taken, route_left, taken_of, plan_after};

use plan_lines::{Line, ROUTE_MOST, Slip, read};
use plan_routes::stands;

// How far a plan is read: the start that the last line `from` has set, if one holds, and how many words the routes take.
#[derive(Clone, Copy)]
pub struct Reading {
    pub start: Option<usize>,
    pub words: usize,
}

// What a line that is not wrong says with those above it.
#[derive(Clone, Copy)]
pub enum Said {
    Nothing,
    // it names this start
    Start(u16),
    // it has a route, from this start
    Route(u16),
}

// What a line says, and how far the plan is read after it.
#[derive(Clone, Copy)]
pub struct Taken {
    pub said: Result<Said, Slip>,
    pub reading: Reading,
}

// Whether a route starts elsewhere than where the routes below the last line `from` do.
fn is_elsewhere(route: &[u16], start: Option<usize>) -> bool
    ensures { result ≡ is_elsewhere route.now start }
{
    match (start, route) {
        (None, _) => false,
        (Some(_), []) => true,
        (Some(start), [first, ..]) => usize::from(*first) != start,
    }
}

// Puts the words of a route into a plan, at a place. There is room for them.
fn put(route: &[u16], plan: &mut [u16], at: usize)
    requires route_len_bound { length route.now < 65536 }
    requires route_in_bounds { at + suc (length route.now) ≤ length plan.old }
    ensures { plan.new ≡ laid route.now at plan.old }
{
    plan[at] = route.len() as u16;
    plan[at + 1..at + 1 + route.len()].copy_from_slice(route);
}

// A wrong line, which is passed over.
fn wrong(slip: Slip, r: Reading) -> Taken
    ensures { result ≡ wrong_by slip r }
{
    Taken {
        said: Err(slip),
        reading: r,
    }
}

// Takes up a route that stands in the next line.
fn take_route(route: &[u16], r: Reading, plan: &mut [u16]) -> Taken
    requires { (0 < length route.now) × (length route.now < 65536) }
    ensures value { result ≡ route_taken route.now r plan.old }
    ensures plan_after { plan.new ≡ route_left route.now r plan.old }
{
    if is_elsewhere(route, r.start) {
        return wrong(Slip::Elsewhere, r);
    }
    let at = r.words.min(plan.len());
    if stands(&plan[..at], route) {
        return wrong(Slip::Again, r);
    }
    if plan.len() - at <= route.len() {
        return wrong(Slip::NoRoom, r);
    }
    put(route, plan, at);
    Taken {
        said: Ok(Said::Route(route[0])),
        reading: Reading {
            start: r.start,
            words: at + (route.len() + 1),
        },
    }
}

// The same as take, with room for the offsets of a route.
fn take_with(line: &[u8], r: Reading, plan: &mut [u16], route: &mut [u16]) -> Taken
    requires { route_most ≤ length route.old }
    ensures value { result ≡ taken_of line.now r plan.old }
    ensures plan_after { plan.new ≡ plan_after line.now r plan.old }
{
    match read(line, route) {
        Ok(Line::Empty) => Taken {
            said: Ok(Said::Nothing),
            reading: r,
        },
        Ok(Line::From(start)) => Taken {
            said: Ok(Said::Start(start)),
            reading: Reading {
                start: Some(usize::from(start)),
                words: r.words,
            },
        },
        Ok(Line::Route(n)) => take_route(&route[..n], r, plan),
        Err(Slip::From) => Taken {
            said: Err(Slip::From),
            reading: Reading {
                start: None,
                words: r.words,
            },
        },
        Err(slip) => wrong(slip, r),
    }
}

// Takes up the next line of a plan whose routes stand in the first words of `plan`; a route is put after them.
pub fn take(line: &[u8], r: Reading, plan: &mut [u16]) -> Taken
    ensures value { result ≡ taken_of line.now r plan.old }
    ensures plan_after { plan.new ≡ plan_after line.now r plan.old }
{
    let mut route = [0u16; ROUTE_MOST];
    take_with(line, r, plan, &mut route)
}
