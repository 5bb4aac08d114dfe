// The track of X.1 (f) that a byte of X.2 (g) names, by the words of X.1's track numbers.
ghost use Rattle.std.specs.Prelude.{◌≡◌};
ghost use Rattle.octets.specs.Octets.{num_at};
ghost use Rattle.verdict.specs.Facts.{same, test};
ghost use Rattle.x1_lookup.specs.Lookup.{find_track};
ghost use Rattle.pair.specs.inner.Tracks.{Answers};
ghost use Rattle.pair.specs.Pair.{present};

use octets::byte_at;
use x1_lookup::Presence;

// How many bytes a track and a position have in X.2.
pub const TRACK_SIZE: usize = 1;

pub const POSITION_SIZE: usize = 4;

// The track whose number stands at t.
pub fn track_at(f: &[u8], g: &[u8], tracks: Presence, t: usize) -> Option<u32>
    requires { Answers f.now tracks }
    ensures { result ≡ find_track f.now (num_at 1 g.now t) }
{
    tracks.entry(byte_at(g, t))
}

// A track was found.
pub fn is_found(found: Option<u32>) -> bool
    ensures { result ≡ test (same (present found) 1) }
{
    found.is_some()
}
