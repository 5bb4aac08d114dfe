// The line of a refused call of the loader, on standard error: its number, of a finishing its place too, and what it means.
ghost use Rattle.std.specs.Prelude.{◌≡◌};

use std::io::Stderr;
use verdict::{Fault, Reason};

// What a reason means, in the words of 01's table and of 02's tickets 4 and 6.
fn meaning(reason: Reason) -> &'static str {
    match reason {
        Reason::Length => "length out of range",
        Reason::Checksum => "the checksum differs",
        Reason::FileType => "wrong file type",
        Reason::Structure => "wrong structure version",
        Reason::Layout => "layout",
        Reason::Field => "a field outside its values",
        Reason::Agreement => "agreement",
        Reason::Target => "link target wrong",
        Reason::Return => "link not returned, or doubled",
        Reason::Station => "stations differ",
        Reason::Track => "track not in X.1",
        Reason::Position => "position beyond the track's end",
        Reason::Question => "question out of range",
        Reason::Steps => "too many steps",
        Reason::Room => "no room",
        Reason::Kinds => "a bad kind list",
        Reason::Identity => "nothing opened, or another identity",
        Reason::Order => "not the next byte due",
        Reason::Piece => "a bad number, no bytes, a wrong byte count or bytes beyond the total",
    }
}

// The same, of a finishing: two of its reasons mean something else than a piece's.
fn finishing_meaning(reason: Reason) -> &'static str {
    match reason {
        Reason::Identity => "the file is another one than was opened",
        Reason::Order => "nothing opened, or bytes still due",
        _ => meaning(reason),
    }
}

// A refused opening.
pub fn opening_refused(err: Stderr, fault: Fault)
    ensures { result ≡ tt }
{
    let number = fault.reason.number();
    let why = meaning(fault.reason);
    let _ = println!(err; "opening refused {number}: {why}");
}

// A refused piece, by its number among all pieces, from 1.
pub fn piece_refused(err: Stderr, number: usize, fault: Fault)
    ensures { result ≡ tt }
{
    let refused = fault.reason.number();
    let why = meaning(fault.reason);
    let _ = println!(err; "piece {number} refused {refused}: {why}");
}

// A refused finishing.
pub fn finishing_refused(err: Stderr, fault: Fault)
    ensures { result ≡ tt }
{
    let number = fault.reason.number();
    let place = fault.place;
    let why = finishing_meaning(fault.reason);
    let _ = println!(err; "finishing refused {number} at {place}: {why}");
}
