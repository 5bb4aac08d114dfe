// Where the entry of a track of X.1 stands, by the track's number (01: a coordinate's track, and the tracks that the pair looks up): by a
// search among the entries, and by the count of present numbers below it.
#![tactic(auto)]

ghost use Rattle.std.specs.Prelude.{◌≡◌};
ghost use Rattle.x1_lookup.specs.Lookup.{find_track};

use tables::number_of;
use x1_layout::points_at;
use x1_records::{ENTRIES, Track};

mod presence;

pub use presence::Presence;

// The entry of the track with a number: the first in stored order. In an accepted file there is no second.
pub fn find_track(f: &[u8], number: usize) -> Option<u32>
    ensures { result ≡ find_track f.now number }
{
    let stop = points_at(f);
    for e in (ENTRIES..stop).step_by(Track::SIZE as usize) {
        if number_of(f, e, Track::NUMBER) == number {
            return Some(e);
        }
    }
    None
}
