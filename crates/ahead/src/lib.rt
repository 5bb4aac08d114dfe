// What lies ahead, for a cab unit (02, ticket 9): the objects ahead of the one that was last passed, in order, by the lies of the turnouts, and
// why the list stops. A layer above the pair and the graph of X.2: the pair is judged once, and then links are followed.
#![tactic(auto)]

ghost use Rattle.std.specs.Prelude.{◌≡◌, length, Err};
ghost use Rattle.verdict.specs.Answers.{answer_number, answer_place};
ghost use Rattle.ahead.specs.Ahead.{stop_number};
ghost use Rattle.ahead.specs.Asked.{ahead_answer, ahead_file, ahead_asked, left_asked};

use crate::asked::look;
use pair::pair_verdict;
use verdict::{Fault, PairFault};
use x2_layout::layout_of;

mod asked;
mod list;
mod ways;

// How many objects are listed at most, and how many lies there are, one for each turnout number.
pub const OBJECTS_MOST: usize = 64;

pub const LIES: usize = 256;

// The bytes of the lies.
pub const NORMAL: u8 = 0;

pub const REVERSE: u8 = 1;

pub const UNKNOWN: u8 = 2;

// How many bytes are lent at least: two for each object that may be listed.
pub const ROOM_LEAST: usize = 128;

// Why a list stops, in the order in which the ticket says it.
#[derive(Clone, Copy)]
pub enum Stop {
    // at a boundary, which stands last
    Boundary = 1,
    // at a missing link
    NoLink = 2,
    // at a turnout, entered at the front, whose lie is unknown; it stands last
    UnknownLie = 3,
    // before an object that is listed already or was last passed
    Repeated = 4,
    // at a turnout, entered at a leg, that is known to lie for the other; it stands last
    AgainstLie = 5,
    // before a new sixty-fifth
    Full = 6,
}

// How many objects are listed, and why no more.
#[derive(Clone, Copy)]
pub struct Sight {
    pub objects: usize,
    pub stop: Stop,
}

// Why nothing is listed.
#[derive(Clone, Copy)]
pub enum AheadFault {
    // the pair's own fault, with its file
    OfPair(PairFault),
    // the question itself is refused
    OfQuestion(Fault),
}

impl Stop {
    // Its number, from 1 in the ticket's order.
    pub fn number(self) -> usize
        ensures { result ≡ stop_number self }
    {
        self as usize
    }
}

impl AheadFault {
    // The number of the answer.
    pub fn number(self) -> usize
        ensures { result ≡ answer_number (ahead_answer (Err self)) }
    {
        match self {
            AheadFault::OfPair(p) => {
                let fault = p.fault;
                fault.number()
            }
            AheadFault::OfQuestion(fault) => fault.number(),
        }
    }

    // The place of the answer: 0 where the question itself is refused.
    pub fn place(self) -> usize
        ensures { result ≡ answer_place (ahead_answer (Err self)) }
    {
        match self {
            AheadFault::OfPair(p) => {
                let fault = p.fault;
                fault.place
            }
            AheadFault::OfQuestion(fault) => fault.place,
        }
    }

    // The file at fault: 0 where it is none.
    pub fn file(self) -> usize
        ensures { result ≡ ahead_file (Err self) }
    {
        match self {
            AheadFault::OfPair(p) => {
                let file = p.file;
                file.number()
            }
            AheadFault::OfQuestion(_) => 0,
        }
    }
}

// The objects ahead of the one that starts at an offset of the X.2, which is left by the link of an index, from 0 in the order of its fields:
// their offsets in the bytes lent, two for each, low byte first.
pub fn ahead(
    first: &[u8],
    second: &[u8],
    offset: usize,
    link: usize,
    lies: &[u8],
    out: &mut [u8],
) -> Result<Sight, AheadFault>
    ensures value { result ≡ ahead_asked first.now second.now offset link lies.now (length out.old) }
    ensures out_after { out.new ≡ left_asked first.now second.now offset link lies.now out.old }
{
    // The form is 01's: the verdict is taken apart by let .. else, and its fault is returned at once.
    let v = pair_verdict(first, second);
    let Ok(()) = v else {
        return Err(AheadFault::OfPair(v.unwrap_err()));
    };
    look(second, layout_of(second), offset, link, lies, out)
}
