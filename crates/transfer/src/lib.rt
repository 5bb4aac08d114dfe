// A loader that cannot join two versions (02, ticket 6). A transfer is opened with an identity, every piece repeats it, and finishing runs the
// reader on the whole. The state goes in by value and comes back by value; the room that the file is gathered in is lent.
#![tactic(auto)]

ghost use Rattle.std.specs.Prelude.{◌≡◌};
ghost use Rattle.transfer.specs.Calls.{refused_for, identity_of};

use envelope::{HEADER, Header, TYPE, end_of};
use octets::u32_at;
use tables::number_of;
use verdict::{Fault, Reason, refusal};

pub mod finishing;
pub mod heads;
pub mod opening;
pub mod pieces;

// What a file is known by: five plain numbers. The trailer is the number of its last four bytes.
#[derive(Clone, Copy, PartialEq, Eq)]
pub struct Identity {
    pub station: usize,
    pub kind: usize,
    pub version: usize,
    pub total: usize,
    pub trailer: usize,
}

// The state of a loader: whether a transfer is open, its identity, and the next byte due.
#[derive(Clone, Copy)]
pub struct State {
    pub opened: bool,
    pub identity: Identity,
    pub due: usize,
}

// What a call answers, and the state after it.
#[derive(Clone, Copy)]
pub struct Step {
    pub verdict: Result<(), Fault>,
    pub state: State,
}

// A refusal at place 0.
fn refused(reason: Reason) -> Result<(), Fault>
    ensures { result ≡ refused_for reason }
{
    Err(refusal(reason))
}

// The identity of a file: its header, its length and its trailer.
pub fn identity_of(f: &[u8]) -> Identity
    ensures { result ≡ identity_of f.now }
{
    let header = Header::read(f);
    Identity {
        station: header.station,
        kind: number_of(f, HEADER, TYPE),
        version: header.data,
        total: f.len(),
        trailer: u32_at(f, end_of(f)),
    }
}
