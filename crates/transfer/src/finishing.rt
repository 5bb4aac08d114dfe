// Finishing: the reader judges the whole, and then it is compared with the identity.
ghost use Rattle.std.specs.Prelude.{◌≡◌, length};
ghost use Rattle.transfer.specs.Calls.{ready_verdict, reader_of, finish_verdict};

use crate::{State, identity_of, refused};
use verdict::{Fault, Reason};

// Whether all bytes have come, 18 where not, and the room holds them, 15 where not.
#[tactic(auto, unfolding(crate::specs::Calls::ready_verdict, crate::specs::Calls::ensure))]
fn ready(state: State, room: usize) -> Result<(), Fault>
    ensures { result ≡ ready_verdict state room }
{
    let identity = state.identity;
    let total = identity.total;
    if !(state.opened & (state.due == total)) {
        return refused(Reason::Order);
    }
    if room < total {
        return refused(Reason::Room);
    }
    Ok(())
}

// The verdict of the reader for a file type.
#[tactic(auto, unfolding(crate::specs::Calls::reader_of))]
fn reader(kind: usize, f: &[u8]) -> Result<(), Fault>
    ensures { result ≡ reader_of kind f.now }
{
    if kind == x1_verdict::verdicts::FILE_TYPE {
        x1_verdict::verdicts::verdict_of(f)
    } else {
        x2_verdict::verdict_of(f)
    }
}

// Finishes a transfer: the reader's verdict on the whole, and then whether the file is the identity's. Nothing changes.
#[tactic(auto, unfolding(crate::specs::Calls::finish_verdict, crate::specs::Calls::and_then, crate::specs::Calls::ensure, crate::specs::Calls::same))]
pub fn finish(state: State, room: &[u8]) -> Result<(), Fault>
    ensures { result ≡ finish_verdict state room.now }
{
    ready(state, room.len())?;
    let identity = state.identity;
    let total = identity.total;
    let f = &room[..total];
    reader(identity.kind, f)?;
    if identity_of(f) != identity {
        return refused(Reason::Identity);
    }
    Ok(())
}
