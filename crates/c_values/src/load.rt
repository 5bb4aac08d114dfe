// The loader's state as bytes: seven values, which the caller keeps from call to call.
ghost use Rattle.std.specs.Prelude.{◌≡◌};
ghost use Rattle.c_values.specs.Load.{state_in, state_words};

use crate::words::word;
use octets::u32_at;
use transfer::{Identity, State};

// How many values a state has, and how many bytes.
pub const STATE_VALUES: usize = 7;

const STATE_SIZE: usize = 28;

// The first value of an open state.
const OPEN_MARK: usize = 1;

// Where its values stand.
const MARK_AT: usize = 0;

const STATION_AT: usize = 4;

const KIND_AT: usize = 8;

const VERSION_AT: usize = 12;

const TOTAL_AT: usize = 16;

const TRAILER_AT: usize = 20;

const DUE_AT: usize = 24;

// The state that some bytes hold. Bytes that are no state have nothing opened.
pub fn state_in(b: &[u8]) -> State
    ensures { result ≡ state_in b.now }
{
    let identity = Identity {
        station: u32_at(b, STATION_AT),
        kind: u32_at(b, KIND_AT),
        version: u32_at(b, VERSION_AT),
        total: u32_at(b, TOTAL_AT),
        trailer: u32_at(b, TRAILER_AT),
    };
    State {
        opened: (STATE_SIZE <= b.len()) & (u32_at(b, MARK_AT) == OPEN_MARK),
        identity,
        due: u32_at(b, DUE_AT),
    }
}

// The values of a state that is open.
pub fn state_words(t: State) -> [u32; STATE_VALUES]
    ensures { result ≡ state_words t }
{
    let identity = t.identity;
    [
        word(OPEN_MARK),
        word(identity.station),
        word(identity.kind),
        word(identity.version),
        word(identity.total),
        word(identity.trailer),
        word(t.due),
    ]
}
