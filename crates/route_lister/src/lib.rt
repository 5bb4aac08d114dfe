// Every route from a boundary (01, 'Routes'), over what stands at each place of the file (crate route_graph): each once, in order, with the
// number of all partial walks. Which walks are legal, and in which order they stand, is defined in crate route_walks. There are two listers (02,
// ticket 12) with one contract: the functions of `lister` call each other, and `flat` holds the open choices in an array.
#![tactic(auto)]

ghost use Rattle.std.specs.Prelude.{◌≡◌};
ghost use Rattle.verdict.specs.Answers.{answer_number, answer_place};
ghost use Rattle.route_lister.specs.Answered.{routes_answer};

use route_walks::Tally;
use verdict::Fault;

mod asked;
mod choices;
mod flat;
mod lister;
mod marks;
mod steps;
mod ways;

pub use flat::list_flat;
pub use lister::list;

// The limit that a limit of 0 means.
pub const DEFAULT_LIMIT: usize = 160;

// The number of an answer: 0 where the routes are listed.
pub fn number(answer: Result<Tally, Fault>) -> usize
    ensures { result ≡ answer_number (routes_answer answer) }
{
    match answer {
        Ok(_) => 0,
        Err(fault) => fault.reason.number(),
    }
}

// The place of an answer: 0 where the routes are listed.
pub fn place(answer: Result<Tally, Fault>) -> usize
    ensures { result ≡ answer_place (routes_answer answer) }
{
    match answer {
        Ok(_) => 0,
        Err(fault) => fault.place,
    }
}
