// Opening: a transfer is opened with an identity.
ghost use Rattle.std.specs.Prelude.{◌≡◌};
ghost use Rattle.transfer.specs.Calls.{nothing_opened, least_of, is_askable, open_verdict, open_step};

use crate::{Identity, State, Step, refused};
use envelope::MOST_LENGTH;
use seven_bits::NUMBER_LIMIT;
use verdict::{Fault, Reason};

// The state of a loader that has nothing opened. Its numbers mean nothing.
pub fn nothing_opened() -> State
    ensures { result ≡ nothing_opened }
{
    let identity = Identity {
        station: 0,
        kind: 0,
        version: 0,
        total: 0,
        trailer: 0,
    };
    State {
        opened: false,
        identity,
        due: 0,
    }
}

// How long a file of a type is at least.
fn least_of(kind: usize) -> usize
    ensures { result ≡ least_of kind }
{
    if kind == x1_verdict::verdicts::FILE_TYPE {
        x1_records::LEAST_LENGTH
    } else {
        x2_verdict::LEAST_LENGTH
    }
}

// Whether there is a reader for the file type, and station, version and trailer fit 32 bits.
#[tactic(auto, unfolding(crate::specs::Calls::is_askable))]
fn is_askable(i: Identity) -> bool
    ensures { result ≡ is_askable i }
{
    let kind = i.kind;
    ((kind == x1_verdict::verdicts::FILE_TYPE) | (kind == x2_verdict::FILE_TYPE))
        & ((i.station < NUMBER_LIMIT) & ((i.version < NUMBER_LIMIT) & (i.trailer < NUMBER_LIMIT)))
}

// What an opening answers: 13, then 15.
#[tactic(auto, unfolding(crate::specs::Calls::open_verdict, crate::specs::Calls::ensure))]
fn open_verdict(i: Identity, room: usize) -> Result<(), Fault>
    ensures { result ≡ open_verdict i room }
{
    if !is_askable(i) {
        return refused(Reason::Question);
    }
    let total = i.total;
    if !((least_of(i.kind) <= total) & ((total <= MOST_LENGTH) & (total <= room))) {
        return refused(Reason::Room);
    }
    Ok(())
}

// Opens a transfer, where so many bytes of room are lent: a granted opening forgets all, a refused one changes nothing.
#[tactic(auto, unfolding(crate::specs::Calls::open_step, crate::specs::Calls::changed))]
pub fn opening(state: State, identity: Identity, room: usize) -> Step
    ensures { result ≡ open_step state identity room }
{
    let verdict = open_verdict(identity, room);
    let Ok(()) = verdict else {
        return Step { verdict, state };
    };
    let fresh = State {
        opened: true,
        identity,
        due: 0,
    };
    Step {
        verdict,
        state: fresh,
    }
}
