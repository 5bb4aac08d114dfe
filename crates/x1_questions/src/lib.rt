// The questions on an X.1 file, track geography (01: 'A question ..'): header, track, point, the coordinate of a point (02, ticket 14), and the
// coordinate at a position. Each takes the verdict apart and returns the file's own fault at once.
#![tactic(auto)]

ghost use Rattle.std.specs.Prelude.{Ok, ◌≡◌, ◌+◌, ◌*◌, ◌≤◌, ◌<◌};
ghost use Rattle.envelope.specs.Seal.{most_length};
ghost use Rattle.x1_verdict.specs.Facts.{verdict_of};
ghost use Rattle.x1_obeys.specs.Obeys.{entry_place};
ghost use Rattle.x1_questions.specs.Questions.{header_of, track_of, point_of, point_coordinate_of, on_track, coordinate_asked};
ghost use Rattle.x1_questions.specs.inner.Requires.{TrackObeys};
ghost use Rattle.x1_questions.specs.inner.Sought.{sought_point};

mod answers;
mod stretch;

pub use answers::Coordinate;
use envelope::{HEADER, Header};
use stretch::{coordinate_on, find_stretch};
use tables::number_of;
use verdict::{Fault, Reason, refusal};
use x1_layout::size_of;
use x1_lookup::find_track;
use x1_records::{COUNT, ENTRIES, LATITUDE, LONGITUDE, Point, Track};
use x1_verdict::sum_of;
use x1_verdict::verdicts::verdict_of;

// Where the entry of track i stands.
fn entry_place(i: u8) -> u16
    ensures { result ≡ entry_place i }
{
    ENTRIES as u16 + Track::SIZE as u16 * i as u16
}

// Where point j stands, of a track whose first point is at `first`.
fn point_place(first: u16, size: u8, j: usize) -> u16
    requires { first + size * j ≤ most_length }
    ensures { result ≡ first + size * j }
{
    (first as usize + size as usize * j) as u16
}

// The header.
pub fn header(f: &[u8]) -> Result<Header, Fault>
    ensures { result ≡ header_of f.now }
{
    // Stays (1): a question takes the verdict apart by `let .. else` (Form.5 in docs/PROMISES.md).
    let v = verdict_of(f);
    let Ok(()) = v else {
        return Err(v.unwrap_err());
    };
    Ok(Header::read(f))
}

// The track of an index.
pub fn track(f: &[u8], index: usize) -> Result<Track, Fault>
    ensures { result ≡ track_of f.now index }
{
    // Stays (1): a question takes the verdict apart by `let .. else` (Form.5 in docs/PROMISES.md).
    let v = verdict_of(f);
    let Ok(()) = v else {
        return Err(v.unwrap_err());
    };
    if number_of(f, HEADER, COUNT) <= index {
        return Err(refusal(Reason::Question));
    }
    let at = entry_place(index as u8);
    Ok(Track::read(f, size_of(f), at))
}

// Where a point stands, and the entry of its track.
#[derive(Clone, Copy)]
struct Standing {
    entry: u16,
    place: u16,
}

// Where the point of an index in the track of an index stands.
fn find_point(f: &[u8], track: usize, index: usize) -> Option<Standing>
    requires { verdict_of f.now ≡ Ok tt }
    ensures { result ≡ sought_point f.now track index }
{
    if number_of(f, HEADER, COUNT) <= track {
        return None;
    }
    let size = size_of(f);
    let entry = entry_place(track as u8);
    let its = Track::read(f, size, entry);
    if its.points() <= index {
        return None;
    }
    let place = point_place(its.first, size, index);
    Some(Standing { entry, place })
}

// The point of an index in the track of an index.
pub fn point(f: &[u8], track: usize, index: usize) -> Result<Point, Fault>
    ensures { result ≡ point_of f.now track index }
{
    // Stays (1): a question takes the verdict apart by `let .. else` (Form.5 in docs/PROMISES.md).
    let verdict = verdict_of(f);
    let Ok(()) = verdict else {
        return Err(verdict.unwrap_err());
    };
    let sought = find_point(f, track, index);
    let Some(at) = sought else {
        return Err(refusal(Reason::Question));
    };
    Ok(Point::read(f, size_of(f), at.place))
}

// Its coordinate: the track's start plus its own increments.
pub fn point_coordinate(f: &[u8], track: usize, index: usize) -> Result<Coordinate, Fault>
    ensures { result ≡ point_coordinate_of f.now track index }
{
    // Stays (1): a question takes the verdict apart by `let .. else` (Form.5 in docs/PROMISES.md).
    let v = verdict_of(f);
    let Ok(()) = v else {
        return Err(v.unwrap_err());
    };
    let sought = find_point(f, track, index);
    let Some(at) = sought else {
        return Err(refusal(Reason::Question));
    };
    let e = at.entry as u32;
    let p = at.place as u32;
    Ok(Coordinate {
        latitude: sum_of(f, LATITUDE, e, p),
        longitude: sum_of(f, LONGITUDE, e, p),
    })
}

// The coordinate at a position of the track with a number.
pub fn coordinate(f: &[u8], number: usize, position: usize) -> Result<Coordinate, Fault>
    ensures { result ≡ coordinate_asked f.now number position }
{
    // Stays (1): a question takes the verdict apart by `let .. else` (Form.5 in docs/PROMISES.md).
    let v = verdict_of(f);
    let Ok(()) = v else {
        return Err(v.unwrap_err());
    };
    let found = find_track(f, number);
    let Some(e) = found else {
        return Err(refusal(Reason::Track));
    };
    coordinate_at(f, size_of(f), e, position)
}

// The coordinate at a position of the track whose entry is at e.
fn coordinate_at(f: &[u8], size: u8, e: u32, x: usize) -> Result<Coordinate, Fault>
    requires { (0 < size) × TrackObeys f.now size e }
    ensures { result ≡ on_track f.now size e x }
{
    if number_of(f, e, Track::END_POSITION) < x {
        return Err(refusal(Reason::Position));
    }
    // Some stretch reaches every position up to the end, so the `else` is never reached; the language has it stand.
    let stretch = find_stretch(f, size, e, x);
    let Some(p) = stretch else {
        return Err(refusal(Reason::Position));
    };
    Ok(coordinate_on(f, size, e, x, p))
}
