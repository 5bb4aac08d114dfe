// How the list goes on from an object that it has reached, by the lies of the turnouts.
ghost use Rattle.std.specs.Prelude.{◌≡◌, nat_le};
ghost use Rattle.std.specs.List.{list_all};
ghost use Rattle.ahead.specs.Lies.{unknown, lie_of, are_lies};
ghost use Rattle.ahead.specs.Ways.{front_of, trail_of, leg_of, way_of};
ghost use Rattle.ahead.specs.inner.Lie.{byte_of, lie_named};

use crate::{LIES, NORMAL, REVERSE, Stop, UNKNOWN};
use route_graph::{Object, TurnoutLinks};

// How turnouts lie.
#[derive(Clone, Copy, PartialEq)]
pub enum Lie {
    Normal,
    Reverse,
    Unknown,
}

// Whether every byte is one of the three lies.
fn all_lies(lies: &[u8]) -> bool
    ensures { result ≡ list_all (λ lie. nat_le lie unknown) lies.now }
{
    lies.iter().all(|lie| *lie <= UNKNOWN)
}

// Whether they are lies: 256 of them, each one of the three.
pub fn are_lies(lies: &[u8]) -> bool
    ensures { result ≡ are_lies lies.now }
{
    (lies.len() == LIES) & all_lies(lies)
}

// The lie that a byte names; one that is no lie counts as unknown.
fn lie_named(byte: u8) -> Lie
    ensures { result ≡ lie_named byte }
{
    match byte {
        NORMAL => Lie::Normal,
        REVERSE => Lie::Reverse,
        _ => Lie::Unknown,
    }
}

// The lie of the turnouts of a number.
fn lie_of(lies: &[u8], number: u8) -> Lie
    ensures { result ≡ lie_named (lie_of lies.now number) }
{
    lie_named(lies.get(usize::from(number)).copied().unwrap_or(UNKNOWN))
}

// Through a turnout that was entered at the front, by its lie.
fn at_front(t: TurnoutLinks, lie: Lie) -> Result<u16, Stop>
    ensures { result ≡ front_of t (byte_of lie) }
{
    match lie {
        Lie::Normal => Ok(t.normal),
        Lie::Reverse => Ok(t.reverse),
        Lie::Unknown => Err(Stop::UnknownLie),
    }
}

// Through a turnout that was entered at a leg: by the front, unless it is known to lie against that leg.
fn at_leg(t: TurnoutLinks, lie: Lie, against: Lie) -> Result<u16, Stop>
    ensures { result ≡ trail_of t (byte_of lie) (byte_of against) }
{
    if lie == against {
        return Err(Stop::AgainstLie);
    }
    Ok(t.front)
}

// Through a turnout that was entered from `from`.
fn through(t: TurnoutLinks, from: u16, lie: Lie) -> Result<u16, Stop>
    ensures { result ≡ leg_of t from (byte_of lie) }
{
    if t.front == from {
        return at_front(t, lie);
    }
    if t.normal == from {
        return at_leg(t, lie, Lie::Reverse);
    }
    at_leg(t, lie, Lie::Normal)
}

// How the list goes on from an object that was entered from `from`: on by a link, or no further. A place where none stands is never reached in an
// accepted file.
pub fn way_of(o: Object, from: u16, lies: &[u8]) -> Result<u16, Stop>
    ensures { result ≡ way_of o from lies.now }
{
    match o {
        Object::Boundary(_) => Err(Stop::Boundary),
        Object::Plain(p) => Ok(p.onward(from)),
        Object::Turnout(t) => through(t, from, lie_of(lies, t.number)),
        Object::Nothing => Ok(0),
    }
}
