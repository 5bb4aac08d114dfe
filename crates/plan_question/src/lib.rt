// The routes of an X.2 file from a start, laid beside a plan (docs/PLAN.md): first what the question routes is refused by; else the list, and
// how many routes of the plan it has not, and how many it has that the plan has not.
#![tactic(auto)]

ghost use Rattle.std.specs.Prelude.{◌≡◌, ◌≤◌, ◌++◌, length, drop};
ghost use Rattle.route_walks.specs.Lent.{room_of};
ghost use Rattle.plan_routes.specs.Routes.{routes_in};
ghost use Rattle.plan_question.specs.Compared.{counts_of, compared_in, compared_asked, left_compared_in, left_compared};
ghost use Rattle.plan_question.specs.inner.Words.{words_in};

use octets::u16_at;
use plan_routes::apart;
use route_question::{Engine, routes_by};
use route_walks::{Tally, WORD_SIZE};
use verdict::Fault;

// As many words of a list there may be, and these are their bytes.
pub const MOST_ROOM: usize = 65535;

const MOST_BYTES: usize = WORD_SIZE * MOST_ROOM;

// The words and the routes of a list; how many routes of the plan are missing in it, and how many of its own are extra.
#[derive(Clone, Copy)]
pub struct Compared {
    pub words: usize,
    pub routes: usize,
    pub missing: usize,
    pub extra: usize,
}

// The words that stand in some bytes, two for each, low byte first.
fn read_words(bytes: &[u8], words: &mut [u16])
    ensures { words.new ≡ words_in (length words.old) bytes.now }
{
    for (k, word) in words.iter_mut().enumerate() {
        *word = u16_at(bytes, WORD_SIZE * k) as u16;
    }
}

// What is counted of a list that stands in some bytes, beside a plan. The words of the list go to the front of `list`.
fn counted(bytes: &[u8], t: Tally, start: usize, plan: &[u16], list: &mut [u16]) -> Compared
    requires { t.words ≤ length list.old }
    ensures value { result ≡ counts_of (routes_in plan.now) start (routes_in (words_in t.words bytes.now)) t }
    ensures list_after { list.new ≡ words_in t.words bytes.now ++ drop t.words list.old }
{
    let n = t.words;
    let listed = &mut list[..n];
    read_words(bytes, listed);
    Compared {
        words: n,
        routes: t.routes,
        missing: apart(plan, start, listed),
        extra: apart(listed, start, plan),
    }
}

// The same as compare, with the bytes that are lent to the question routes.
fn answered(
    engine: Engine,
    f: &[u8],
    start: usize,
    limit: usize,
    budget: usize,
    plan: &[u16],
    list: &mut [u16],
    lent: &mut [u8],
) -> Result<Compared, Fault>
    requires { room_of lent.old ≤ length list.old }
    ensures value { result ≡ compared_in f.now start limit budget plan.now (room_of lent.old) }
    ensures list_after { list.new ≡ left_compared_in f.now start limit budget list.old (room_of lent.old) }
{
    match routes_by(engine, f, start, limit, budget, lent) {
        Ok(t) => Ok(counted(lent, t, start, plan, list)),
        Err(fault) => Err(fault),
    }
}

// The routes from a start, by an engine, beside the plan that stands in some words. The words of the list go to the front of `list`, as many
// as find room there; a refusal leaves every word of it as it was.
pub fn compare(
    engine: Engine,
    f: &[u8],
    start: usize,
    limit: usize,
    budget: usize,
    plan: &[u16],
    list: &mut [u16],
) -> Result<Compared, Fault>
    ensures value { result ≡ compared_asked f.now start limit budget plan.now (length list.old) }
    ensures list_after { list.new ≡ left_compared f.now start limit budget list.old }
{
    let mut bytes = [0u8; MOST_BYTES];
    let lent = WORD_SIZE * list.len().min(MOST_ROOM);
    answered(
        engine,
        f,
        start,
        limit,
        budget,
        plan,
        list,
        &mut bytes[..lent],
    )
}
