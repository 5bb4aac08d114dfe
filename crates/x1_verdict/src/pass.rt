// One pass over the tracks of a file and their points: whether each point obeys by its fields and agrees, so that an accepted file is read
// once. Where it stops, nothing is said, and the checks go in turn, that of the agreement from the track where it stops. The points of a
// track are due where those of the track before it end, so that together they are all points.
ghost use Rattle.std.specs.Prelude.{IfSome, ◌≡◌, true, ◌+◌, ◌-◌, ◌^◌, ◌≤◌, ◌<◌, length};
ghost use Rattle.octets.specs.Octets.{Is, IsSigned};
ghost use Rattle.tables.specs.Table.{value_of};
ghost use Rattle.x1_records.specs.Places.{entry_size};
ghost use Rattle.x1_records.specs.Rows.{position};
ghost use Rattle.x1_verdict.specs.Agreement.{FrameOf};
ghost use Rattle.x1_verdict.specs.inner.FirstOff.{Later};
ghost use Rattle.x1_verdict.specs.inner.Pass.{FieldsIfSmall, PointPassed, EdgePassed, LastPassed, LaterPassed, RoomyInside, TrackPassed, Passing, Reached, TracksPassed, AllPassed};

use crate::agreement::{Frame, closing_obeys, is_roomy, number_obeys, opening_obeys, stay_obeys};
use crate::fields::entries_fields;
use envelope::end_of;
use octets::Width;
use tables::{lies_between, number_of};
use x1_fields::header_fields;
use x1_layout::points_at;
use x1_records::{ENTRIES, HEADING_MOST, POSITION_MOST, Point, Track};

// The least heading as a number without sign: it has two bytes, and a negative one counts down from 256 times 256.
const HEADING_LEAST: usize = 0x1_0000 - HEADING_MOST;

// ---- what lies inside the file, read with no test of where it ends

// The byte at a place inside the file.
// Stays (2): octets has such a reader, which requires its bytes inside the file, so that a rule of the project keeps it private there.
fn byte_inside(f: &[u8], at: usize) -> usize
    requires { at < length f.now }
    ensures { Is 1 f.now at result }
{
    f[at] as usize
}

// The number of two bytes that lie inside the file.
// Stays (2): octets has such a reader, which requires its bytes inside the file, so that a rule of the project keeps it private there.
fn two_inside(f: &[u8], at: usize) -> usize
    requires { at + 2 ≤ length f.now }
    ensures { Is 2 f.now at result }
{
    byte_inside(f, at) + 256 * byte_inside(f, at + 1)
}

// The number of four bytes that lie inside the file.
// Stays (2): octets has such a reader, which requires its bytes inside the file, so that a rule of the project keeps it private there.
fn four_inside(f: &[u8], at: usize) -> usize
    requires { at + 4 ≤ length f.now }
    ensures { Is 4 f.now at result }
{
    byte_inside(f, at) + 256 * (byte_inside(f, at + 1) + 256 * two_inside(f, at + 2))
}

// The signed number of four bytes that lie inside the file.
fn signed_inside(f: &[u8], at: usize) -> i64
    requires { at + 4 ≤ length f.now }
    ensures { IsSigned 4 f.now at result }
{
    let n = four_inside(f, at);
    let half = Width::Four.half();
    if n < half {
        n as i64
    } else {
        -1 - (half + half - 1 - n) as i64
    }
}

// The frame of the entry at e, which lies inside the file.
fn frame_inside(f: &[u8], e: u32) -> Frame
    requires { e + entry_size ≤ length f.now }
    ensures { FrameOf f.now e result }
{
    let at = e as usize;
    let latitude = signed_inside(f, at + Track::START_LATITUDE.0 as usize);
    let longitude = signed_inside(f, at + Track::START_LONGITUDE.0 as usize);
    Frame {
        first: two_inside(f, at + Track::FIRST.0 as usize) as u16,
        last: two_inside(f, at + Track::LAST.0 as usize) as u16,
        latitude: latitude,
        longitude: longitude,
        roomy: is_roomy(latitude, longitude),
    }
}

// ---- the pass

// The point at p obeys by its fields, but for the limit of its position.
fn fields_pass(f: &[u8], p: u32) -> bool
    ensures { result ≡ true → FieldsIfSmall f.now p }
{
    let heading = number_of(f, p, Point::HEADING);
    let heads = (heading <= HEADING_MOST) | (HEADING_LEAST <= heading);
    let near = lies_between(f, p, Point::NEAR, 0, 1);
    heads & near
}

// The first point of the entry at e, which is not its last one, agrees and obeys by its fields. Its position is 0, which is no more than
// the limit.
fn first_passes(f: &[u8], size: u8, e: u32, t: Frame) -> bool
    requires { FrameOf f.now e t × (0 < size) }
    ensures { result ≡ true → EdgePassed f.now size e t.first }
{
    let p = t.first as u32;
    if f.len() < p as usize + Point::SIZE as usize {
        return false;
    }
    let opens = opening_obeys(f, size, p);
    let stays = stay_obeys(f, e, t, p);
    let fields = fields_pass(f, p);
    (t.first < t.last) & (opens & (stays & fields))
}

// The point at p, neither the first nor the last one of the entry at e, agrees and obeys by its fields, but for the limit of its position:
// positions rise, and the last one is tested. The point's own position and that of the point before it have been read.
fn later_passes(f: &[u8], size: u8, e: u32, t: Frame, before: usize, here: usize, p: u32) -> bool
    requires { Later f.now size e t p × (before ≡ value_of f.now (p - size) position) × (here ≡ value_of f.now p position) }
    ensures { result ≡ true → PointPassed f.now size e p }
{
    let rises = before < here;
    let fields = fields_pass(f, p);
    let stays = stay_obeys(f, e, t, p);
    rises & (fields & stays)
}

// The point at p, after the first one of the entry at e, is its last one, agrees and obeys by its fields.
fn last_passes(f: &[u8], size: u8, e: u32, t: Frame, p: u32) -> bool
    requires { FrameOf f.now e t × (t.first + size ≤ p) }
    ensures { result ≡ true → LastPassed f.now size e p }
{
    if f.len() < p as usize + Point::SIZE as usize {
        return false;
    }
    let before = number_of(f, p - size as u32, Point::POSITION);
    let here = number_of(f, p, Point::POSITION);
    let fields = fields_pass(f, p);
    let stays = stay_obeys(f, e, t, p);
    let closes = closing_obeys(f, e, t, p);
    let last = p == t.last as u32;
    last & ((before < here) & ((here <= POSITION_MOST) & (fields & (stays & closes))))
}

// How far the pass comes over the points of the entry at e after its first one and before its last, where no increment leads out of the
// ranges and the last one lies inside the file, so that nothing is asked but what is tested here. It stops where one does not pass. The
// second point's place is handed over.
fn roomy_pass(f: &[u8], size: u8, e: u32, t: Frame, second: usize) -> u32
    requires { RoomyInside f.now e t × (0 < size) × (second ≡ t.first + size) }
    ensures { LaterPassed f.now size e result }
{
    let step = size as usize;
    let last = t.last as usize;
    let mut before = four_inside(f, second - step + Point::POSITION.0 as usize);
    let mut p = second;
    // Stays (3): the place where the walk ends is the answer, and a `for` does not keep the one past its last turn.
    while p < last {
        let here = four_inside(f, p + Point::POSITION.0 as usize);
        if here <= before {
            return p as u32;
        }
        let heading = two_inside(f, p + Point::HEADING.0 as usize);
        if !((heading <= HEADING_MOST) | (HEADING_LEAST <= heading)) {
            return p as u32;
        }
        if byte_inside(f, p + Point::NEAR.0 as usize) > 1 {
            return p as u32;
        }
        before = here;
        p = p + step;
    }
    p as u32
}

// How far the pass comes over the points of the entry at e after its first one and before its last. It stops where one does not pass, or
// where the file ends inside it.
fn later_pass(f: &[u8], size: u8, e: u32, t: Frame) -> u32
    requires { FrameOf f.now e t × (0 < size) }
    ensures { LaterPassed f.now size e result }
{
    let step = size as u32;
    let last = t.last as u32;
    let inside = last as usize + Point::SIZE as usize <= f.len();
    if t.roomy & ((t.first < t.last) & inside) {
        let second = t.first as usize + size as usize;
        return roomy_pass(f, size, e, t, second);
    }
    let mut before = number_of(f, t.first as u32, Point::POSITION);
    let mut p = t.first as u32 + step;
    // Stays (3): the place where the walk ends is the answer, and a `for` does not keep the one past its last turn.
    while p < last {
        if f.len() < p as usize + Point::SIZE as usize {
            return p;
        }
        let here = number_of(f, p, Point::POSITION);
        if !later_passes(f, size, e, t, before, here, p) {
            return p;
        }
        before = here;
        p = p + step;
    }
    p
}

// The track of the entry at e, whose points are due at a place: its number agrees, its points stand there, and each obeys and agrees. It
// answers where the next track's points are due. The track does not pass where the file ends inside the entry.
fn track_passes(f: &[u8], size: u8, e: u32, due: u32) -> Option<u32>
    requires { 0 < size }
    ensures { IfSome result (λ next. TrackPassed f.now size e due next × (next < 2 ^ 18)) }
{
    if f.len() < e as usize + Track::SIZE as usize {
        return None;
    }
    let t = frame_inside(f, e);
    let first = t.first as u32;
    let number = number_obeys(f, e);
    let opens = first_passes(f, size, e, t);
    let last = later_pass(f, size, e, t);
    let closes = last_passes(f, size, e, t, last);
    if (first == due) & (number & (opens & closes)) {
        return Some(last + size as u32);
    }
    None
}

// How far the pass comes over the tracks: where the points of them all end, or the entry of the first one that does not pass.
pub fn tracks_reached(f: &[u8], size: u8) -> Result<u32, u32>
    requires { 0 < size }
    ensures { Reached f.now size result }
{
    let points = points_at(f);
    let mut due = points;
    for e in (ENTRIES..points).step_by(Track::SIZE as usize) {
        match track_passes(f, size, e, due) {
            Some(next) => due = next,
            None => return Err(e),
        }
    }
    Ok(due)
}

// Every track agrees, and all points obey: those of one track after those of the other reach End.
fn tracks_pass(f: &[u8], size: u8) -> bool
    requires { 0 < size }
    ensures { result ≡ true → TracksPassed f.now size }
{
    match tracks_reached(f, size) {
        Ok(due) => end_of(f) <= due as usize,
        Err(_) => false,
    }
}

// Whether all fields obey and every track agrees: the fields of the header and of the entries, which are few, then the pass.
pub fn all_obey(f: &[u8], size: u8) -> bool
    requires { 0 < size }
    ensures { result ≡ true → AllPassed f.now size }
{
    header_fields(f).is_ok() && (entries_fields(f).is_ok() && tracks_pass(f, size))
}
