// Routes in words, as the list has them that the question routes answers (01, 'Routes'): per route its object count, and then the offsets.
// Here is which of them stand among others, so that a plan can be laid beside a list (docs/PLAN.md).
#![tactic(auto)]

ghost use Rattle.std.specs.Prelude.{◌≡◌, length};
ghost use Rattle.std.specs.Iterator.{YieldsFirstRef, at_most};
ghost use Rattle.plan_routes.specs.Routes.{routes_in, route_end, same_route, among, is_apart, apart};

// The routes in some words, one after the other.
#[derive(Drop)]
struct Routes<'a>(&'a [u16]);

impl<'a> Iterator for Routes<'a> {
    type Item = &'a [u16];

    ghost next_gives = { YieldsFirstRef (λ s. routes_in s.0.now) };

    ghost remaining = { λ s. at_most (length s.0.now) };

    fn next(&mut self) -> Option<&'a [u16]> {
        if self.0.is_empty() {
            return None;
        }
        let (route, rest) = self.0.split_at(route_end(self.0, 0));
        self.0 = rest;
        Some(&route[1..])
    }
}

// Whether two routes are the same. Those from one start differ late, so they are looked at from their ends.
fn same(a: &[u16], b: &[u16]) -> bool
    ensures { result ≡ same_route a.now b.now }
{
    a.len() == b.len() && a.iter().rev().zip(b.iter().rev()).all(|(x, y)| x == y)
}

// Where the route ends whose count is the word at a place; the last route may have fewer offsets than its count says.
pub fn route_end(words: &[u16], at: usize) -> usize
    ensures { result ≡ route_end words.now at }
{
    let Some(count) = words.get(at) else {
        return words.len();
    };
    at.saturating_add(1 + usize::from(*count)).min(words.len())
}

// Whether a route stands among those in some words.
pub fn stands(words: &[u16], route: &[u16]) -> bool
    ensures { result ≡ among (routes_in words.now) route.now }
{
    Routes(words).any(|other| same(other, route))
}

// Whether a route is from a start and does not stand among those in some words.
pub fn is_apart(route: &[u16], start: usize, others: &[u16]) -> bool
    ensures { result ≡ is_apart route.now start (routes_in others.now) }
{
    match route {
        [] => false,
        [first, ..] => usize::from(*first) == start && !stands(others, route),
    }
}

// How many of the routes in some words are from a start and do not stand among those in others.
pub fn apart(words: &[u16], start: usize, others: &[u16]) -> usize
    ensures { result ≡ apart (routes_in words.now) start (routes_in others.now) }
{
    Routes(words)
        .filter(|route| is_apart(route, start, others))
        .count()
}
