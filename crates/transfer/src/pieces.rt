// A piece: seven numbers, the identity's five, its start and its byte count, and then the bytes.
ghost use Rattle.std.specs.Prelude.{◌≡◌, ◌+◌, ◌≤◌, length, leb};
ghost use Rattle.std.proofs.Math.Seq.{paste};
ghost use Rattle.transfer.specs.Calls.{follows, stated_in, piece_judged, piece_step, piece_room};

use crate::{Identity, State, Step, refused};
use seven_bits::number_at;
use verdict::{Fault, Reason};

// What a piece states: its identity, its start, its byte count and where its bytes begin. Good: no number is bad, there are bytes, and as many as
// it says.
#[derive(Clone, Copy)]
pub struct Stated {
    pub good: bool,
    pub identity: Identity,
    pub start: usize,
    pub count: usize,
    pub from: usize,
}

// Whether there are bytes from a place on, and as many as a count says.
fn follow(s: &[u8], from: usize, count: usize) -> bool
    ensures { result ≡ follows s.now from count }
{
    (from < s.len()) && (count == s.len() - from)
}

// What a piece states.
pub fn stated_in(s: &[u8]) -> Stated
    ensures { result ≡ stated_in s.now }
{
    let station = number_at(s, 0);
    let kind = number_at(s, station.next);
    let version = number_at(s, kind.next);
    let total = number_at(s, version.next);
    let trailer = number_at(s, total.next);
    let start = number_at(s, trailer.next);
    let count = number_at(s, start.next);
    let whole = follow(s, count.next, count.value);
    let identity = Identity {
        station: station.value,
        kind: kind.value,
        version: version.value,
        total: total.value,
        trailer: trailer.value,
    };
    Stated {
        good: station.good
            & (kind.good
                & (version.good
                    & (total.good & (trailer.good & (start.good & (count.good & whole)))))),
        identity,
        start: start.value,
        count: count.value,
        from: count.next,
    }
}

// Whether so many bytes from a start on end within a total.
fn within(start: usize, count: usize, total: usize) -> bool
    ensures { result ≡ leb (start + count) total }
{
    (count <= total) && (start <= total - count)
}

// What a piece answers, by what it states: 19, 17, 18, 19 and 15, in this order.
#[tactic(auto, unfolding(crate::specs::Calls::piece_judged, crate::specs::Calls::ensure, crate::specs::Calls::same))]
fn piece_verdict(state: State, p: Stated, room: usize) -> Result<(), Fault>
    ensures { result ≡ piece_judged state p room }
{
    let opened = state.identity;
    let stated = p.identity;
    let total = opened.total;
    if !p.good {
        return refused(Reason::Piece);
    }
    if !(state.opened & (stated == opened)) {
        return refused(Reason::Identity);
    }
    if !(p.start == state.due) {
        return refused(Reason::Order);
    }
    if !within(p.start, p.count, total) {
        return refused(Reason::Piece);
    }
    if room < total {
        return refused(Reason::Room);
    }
    Ok(())
}

// Copies bytes into the room from a place on.
fn copy(bytes: &[u8], room: &mut [u8], at: usize)
    requires { at + length bytes.now ≤ length room.old }
    ensures { room.new ≡ paste room.old at bytes.now (length bytes.now) }
{
    room[at..at + bytes.len()].copy_from_slice(bytes);
}

// Takes a piece: where it is accepted, its bytes stand in the room from its start on; where it is refused, nothing changes.
pub fn piece(state: State, s: &[u8], room: &mut [u8]) -> Step
    ensures value { result ≡ piece_step state s.now (length room.old) }
    ensures room_after { room.new ≡ piece_room state s.now room.old }
{
    let p = stated_in(s);
    let verdict = piece_verdict(state, p, room.len());
    let Ok(()) = verdict else {
        return Step { verdict, state };
    };
    let from = p.from;
    let start = p.start;
    let identity = state.identity;
    let next = State {
        opened: state.opened,
        identity,
        due: start + p.count,
    };
    copy(&s[from..], room, start);
    Step {
        verdict,
        state: next,
    }
}
