// The question load (02, ticket 6): the first byte string of a case is a sequence of calls of the loader, each in 1 byte what is called (an opening,
// a piece and a finishing are 1 to 3), in 4 bytes how much of the room is lent, in 4 bytes a length, and so many bytes. It is read call by call,
// since it may be longer than a file. The room is filled before the first call, and nothing is opened then.
ghost use Rattle.std.specs.Prelude.{◌≤◌, ◌+◌, IfOk, length};

use crate::{Head, NUMBER, Stop, pass_over};
use octets::u32_at;
use std::io::{Read, Stdout};
use text::line;
use transfer::finishing::finish;
use transfer::opening::{nothing_opened, opening};
use transfer::pieces::piece;
use transfer::{Identity, State, Step};
use verdict::{answer_number, answer_place};

// What stands before the bytes of a call: what is called, how much of the room is lent, and a length.
const CALL_HEAD: usize = 9;

const CALL_LENT: usize = 1;

const CALL_LENGTH: usize = 5;

// The bytes of an opening: five numbers.
const IDENTITY: usize = 5 * NUMBER;

// How many bytes a call may have.
const CALL_MOST: usize = 131072;

// How much room a case may have, and what it is filled with.
const ROOM_MOST: usize = 65536;

const FILLED: u8 = 0xA5;

// A call that the loader has.
#[derive(Clone, Copy)]
enum Called {
    Opening,
    Piece,
    Finishing,
}

// A call: what is called, how much of the room is lent, and its bytes.
#[derive(Drop)]
struct Call {
    called: Called,
    lent: usize,
    bytes: Vec<u8>,
}

// ---- a call

// What is called by a code, with n bytes.
fn kind_of(code: u8, n: usize) -> Result<Called, Stop> {
    match code {
        1 if n == IDENTITY => Ok(Called::Opening),
        2 => Ok(Called::Piece),
        3 => Ok(Called::Finishing),
        _ => Err(Stop::UnknownCall),
    }
}

// The five numbers of an opening.
fn identity_in(bytes: &[u8]) -> Identity {
    Identity {
        station: u32_at(bytes, 0),
        kind: u32_at(bytes, NUMBER),
        version: u32_at(bytes, 2 * NUMBER),
        total: u32_at(bytes, 3 * NUMBER),
        trailer: u32_at(bytes, 4 * NUMBER),
    }
}

impl Call {
    // Reads the next one, where so many bytes of the calls are left.
    fn read(rt: HostRuntime, left: usize) -> Result<Call, Stop>
        ensures { IfOk result (λ call. 9 + length call.bytes.items ≤ left) }
    {
        let mut head = [0u8; CALL_HEAD];
        let Some(left) = left.checked_sub(CALL_HEAD) else {
            return Err(Stop::InsideCall);
        };
        rt.stdin().read_exact(&mut head)?;
        let n = u32_at(&head, CALL_LENGTH);
        if left < n {
            return Err(Stop::InsideCall);
        }
        if CALL_MOST < n {
            return Err(Stop::LongCall);
        }
        let called = kind_of(head[0], n)?;
        let lent = u32_at(&head, CALL_LENT);
        let mut bytes = vec![in rt.alloc(); 0u8; n]?;
        rt.stdin().read_exact(&mut bytes)?;
        Ok(Call {
            called,
            lent,
            bytes,
        })
    }

    // Makes it, with the room that is lent.
    fn make(&self, state: State, room: &mut [u8]) -> Step {
        match self.called {
            Called::Opening => opening(state, identity_in(&self.bytes), room.len()),
            Called::Piece => piece(state, &self.bytes, room),
            Called::Finishing => {
                let verdict = finish(state, room);
                Step { verdict, state }
            }
        }
    }

    // Makes it with as much of the room as it lends, or all of it where that is less, and prints its answer. It answers the state after it.
    fn answer(&self, out: Stdout, state: State, room: &mut [u8]) -> State {
        let lent = self.lent.min(room.len());
        let step = self.make(state, &mut room[..lent]);
        let verdict = step.verdict;
        let fault = verdict.err();
        let _ = println!(out; "{} {}", answer_number(fault), answer_place(fault));
        step.state
    }
}

// ---- a case

// Reads and answers the calls of a case, of n bytes. It answers the state after them.
fn answer_calls(rt: HostRuntime, n: usize, room: &mut [u8]) -> Result<State, Stop> {
    let mut state = nothing_opened();
    let mut left = n;
    // Stays (3): the bytes that are left are counted here, since no contract says how many `read_exact` leaves of the library's `Take`.
    while 0 < left {
        let call = Call::read(rt, left)?;
        left -= CALL_HEAD + call.bytes.len();
        state = call.answer(rt.stdout(), state, room);
    }
    Ok(state)
}

// Answers the case of load that begins with a head: a line for each call, the next byte due and the checksum of the room.
pub fn answer(rt: HostRuntime, head: &Head) -> Result<(), Stop> {
    let [size, _, _, _] = head.numbers();
    if ROOM_MOST < size {
        return Err(Stop::LargeRoom);
    }
    let mut room = vec![in rt.alloc(); FILLED; size]?;
    let state = answer_calls(rt, head.first_length(), &mut room)?;
    pass_over(rt, head.second_length())?;
    line(rt.stdout(), b"due", state.due);
    line(rt.stdout(), b"room", checksum::of(&room));
    rt.stdout().write_all(b"\n")?;
    Ok(())
}
