// What the programs print about routes (01, 'Routes'): the answer to one question, and the list of a whole station. A route is a line with
// the offsets of its objects. The answers are those of crate route_question; here they become text.
#![tactic(auto)]

ghost use Rattle.std.specs.Prelude.{◌≡◌, min};
ghost use Rattle.verdict.specs.Reasons.{number_in};
ghost use Rattle.verdict.specs.Answers.{answer_number};
ghost use Rattle.x2_verdict.specs.Facts.{verdict_of};
ghost use Rattle.route_lister.specs.Answered.{routes_answer};
ghost use Rattle.route_question.specs.Routes.{routes_asked};

use octets::u16_at;
use route_lister::{number, place};
use route_question::{Engine, routes_by};
use route_walks::{Tally, WORD_SIZE};
use std::io::Stdout;
use tables::number_of;
use text::{head, line, lines};
use verdict::Fault;
use x2_layout::{ENTRY_OFFSET, ENTRY_SIZE, Layout, START_ENTRIES, layout_of};

// As many words may be lent for one question, and these are their bytes.
// Stays (6): a library takes no heap, so that a list has a room of fixed size.
pub const MOST_ROOM: usize = 65535;

const MOST_BYTES: usize = WORD_SIZE * MOST_ROOM;

// The number of the answer where the list has no room.
// Stays (1): `routes` answers with the paper's number, by its clause and `routes_determined` of promises.
pub const NO_ROOM: usize = 15;

// What the list of a station asks with: the limit, the budget, and as many words, in these bytes.
const LIST_LIMIT: usize = 0;

const LIST_BUDGET: usize = 65535;

const LIST_ROOM: usize = 4096;

const LIST_BYTES: usize = WORD_SIZE * LIST_ROOM;

// Prints the next word of a listing, of whose route `left` offsets are still to come, and answers how many are then. Where none are, the
// word is not printed: it is the object count of the next route.
fn word_printed(out: Stdout, left: usize, word: usize) -> usize {
    if left == 0 {
        return word;
    }
    let end = if left == 1 { '\n' } else { ' ' };
    let _ = print!(out; "{word}{end}");
    left - 1
}

// The routes in the first n words, each on a line.
fn route_lines(out: Stdout, lent: &[u8], n: usize) {
    let mut left = 0;
    for word in lent.chunks_exact(WORD_SIZE).take(n) {
        left = word_printed(out, left, u16_at(word, 0));
    }
}

// The values of an answer, and its routes.
fn tally_lines(out: Stdout, t: Tally, lent: &[u8]) {
    let values = [t.routes, t.words, t.walks];
    lines(out, b"routes words walks", &values);
    route_lines(out, lent, t.words);
}

// Prints an answer with its routes.
fn answer_lines(out: Stdout, answer: Result<Tally, Fault>, lent: &[u8]) {
    head(out, b"answer", number(answer), place(answer));
    if let Ok(t) = answer {
        tally_lines(out, t, lent);
    }
}

// The same for a question with as much room; nothing where that is more than is here and the list does not fit what is here.
fn answer_within(out: Stdout, answer: Result<Tally, Fault>, room: usize, lent: &[u8]) {
    if room <= MOST_ROOM || number(answer) != NO_ROOM {
        answer_lines(out, answer, lent);
    }
}

// The question routes, by an engine, with room for as many words. It answers the number of the answer, 0 where the routes are listed. Where
// the question has more words than are here and the list does not fit those that are, it answers 15 and prints nothing: what the answer is, it
// cannot say.
pub fn routes(
    out: Stdout,
    engine: Engine,
    f: &[u8],
    start: usize,
    limit: usize,
    budget: usize,
    room: usize,
) -> usize
    ensures { result ≡ answer_number (routes_answer (routes_asked f.now start limit budget (min room 65535))) }
{
    let mut bytes = [0u8; MOST_BYTES];
    let words = room.min(MOST_ROOM);
    let lent = &mut bytes[..WORD_SIZE * words];
    let answer = routes_by(engine, f, start, limit, budget, lent);
    answer_within(out, answer, room, lent);
    number(answer)
}

// How many routes there are from a start boundary, how many partial walks, and the routes.
fn listed_lines(out: Stdout, t: Tally, lent: &[u8]) {
    let _ = println!(out; " routes {} walks {}", t.routes, t.walks);
    route_lines(out, lent, t.words);
}

// Why routes are refused.
fn refused_line(out: Stdout, fault: Fault) {
    line(out, b" refused", fault.number());
}

// The routes from a start boundary, or why they are refused.
fn start_lines(out: Stdout, f: &[u8], l: Layout, start: usize) {
    let _ = print!(out; "from {start}");
    let mut bytes = [0u8; LIST_BYTES];
    let answer = route_lister::list(f, l, start, LIST_LIMIT, LIST_BUDGET, &mut bytes);
    match answer {
        Ok(t) => listed_lines(out, t, &bytes),
        Err(fault) => refused_line(out, fault),
    }
}

// The routes from each start boundary, in the header's order.
fn every_start(out: Stdout, f: &[u8]) {
    let l = layout_of(f);
    for i in 0..l.n {
        let entry = (START_ENTRIES + ENTRY_SIZE * i) as u32;
        start_lines(out, f, l, number_of(f, entry, ENTRY_OFFSET));
    }
}

// The list of a station: the verdict of its X.2 file and, where that is accepted, the routes from each start boundary. It answers the number of
// the verdict.
pub fn list(out: Stdout, f: &[u8]) -> usize
    ensures { result ≡ number_in (verdict_of f.now) }
{
    match x2_verdict::verdict_of(f) {
        Ok(()) => {
            head(out, b"verdict", 0, 0);
            every_start(out, f);
            0
        }
        Err(fault) => {
            let number = fault.number();
            head(out, b"verdict", number, fault.place);
            number
        }
    }
}
