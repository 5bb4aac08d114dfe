// The agreement of X.1 (01, 'Agreement' and 'Agreement in X.1'): 7 in 01's table.
ghost use Rattle.std.specs.Prelude.{◌≡◌, true, cond, ◌+◌, ◌^◌, ◌<◌, ltb, eqb, nat_abs, ◌+ℤ◌, ◌-ℤ◌};
ghost use mathlib.Core.List.{[], ◌∷◌, flat_map};
ghost use Rattle.std.specs.Int.Signed.{mag};
ghost use Rattle.octets.specs.Octets.{bytes_of, half_of};
ghost use Rattle.verdict.specs.Facts.{same, at_most, test, all_tests, alone, first_fault};
ghost use Rattle.rules.specs.Rules.{zero_at, same_as, above};
ghost use Rattle.tables.specs.Table.{signed_of};
ghost use Rattle.x1_records.specs.Places.{latitude_most, longitude_most};
ghost use Rattle.x1_layout.specs.Layout.{first_of, last_of};
ghost use Rattle.x1_verdict.specs.Agreement.{SumOf, FrameOf, field_row, point_mark, sum_within, sum_is, number_agrees, opens, rises, stays, closes, point_agrees, points_of, track_agrees, agreement_facts};
ghost use Rattle.x1_verdict.specs.inner.FirstOff.{Later, LaterOff, FirstOff};

use crate::pass::tracks_reached;
use octets::{byte_at, distance};
use rules::{above, same_as, zero_at};
use tables::{Field, equals, number_of, place_of, signed_of};
use verdict::{Mark, Reason, Rule, fact};
use x1_layout::{entry_before, is_first, points_at};
use x1_records::{Axis, LATITUDE, LATITUDE_MOST, LONGITUDE, LONGITUDE_MOST, Point, Track};

// ---- start plus increment

// A start plus the increment of the point at p.
fn sum_from(f: &[u8], start: i64, p: u32, increment: Field) -> i64
    requires { mag start < 2 ^ 31 }
    ensures value { result ≡ start +ℤ signed_of f.now p (field_row increment) }
    ensures result_bound { mag result < 2 ^ 33 }
{
    start + signed_of(f, p, increment)
}

// The start, of the entry at e, plus the increment, of the point at p.
pub fn sum_of(f: &[u8], axis: Axis, e: u32, p: u32) -> i64
    ensures { SumOf f.now axis e p result }
{
    let start = axis.start;
    let increment = axis.increment;
    sum_from(f, signed_of(f, e, start), p, increment)
}

// One rule of the point at p.
fn ask(ok: bool, p: u32, rule: Rule) -> Result<(), Mark>
    ensures { result ≡ alone ok (point_mark p rule) }
{
    let at = p as usize;
    fact(ok, Reason::Agreement, at, at, 0, rule)
}

// A start plus the increment of the point at p is at most so far from 0.
fn sum_lies_within(f: &[u8], start: i64, p: u32, increment: Field, limit: usize) -> bool
    requires { mag start < 2 ^ 31 }
    ensures { result ≡ test (at_most (nat_abs (start +ℤ signed_of f.now p (field_row increment))) limit) }
{
    distance(sum_from(f, start, p, increment)) <= limit
}

// The same of the entry at e, as a fact.
fn sum_within(f: &[u8], axis: Axis, e: u32, p: u32, limit: usize) -> Result<(), Mark>
    ensures { result ≡ first_fault (sum_within f.now e (field_row axis.start) p (field_row axis.increment) limit ∷ []) }
{
    let start = axis.start;
    let increment = axis.increment;
    let from = signed_of(f, e, start);
    let ok = sum_lies_within(f, from, p, increment, limit);
    let rule = Rule::SumWithin(place_of(p, increment), place_of(e, start), limit);
    ask(ok, p, rule)
}

// A start plus the increment of the point at p is the end.
fn sum_equals(f: &[u8], start: i64, end: i64, p: u32, increment: Field) -> bool
    requires { (mag start < 2 ^ 31) × (mag end < 2 ^ 31) }
    ensures { result ≡ test (same (nat_abs (start +ℤ signed_of f.now p (field_row increment) -ℤ end)) 0) }
{
    distance(sum_from(f, start, p, increment) - end) == 0
}

// The same of the entry at e, as a fact.
fn sum_is(f: &[u8], axis: Axis, e: u32, p: u32) -> Result<(), Mark>
    ensures { result ≡ first_fault (sum_is f.now e (field_row axis.start) (field_row axis.end) p (field_row axis.increment) ∷ []) }
{
    let start = axis.start;
    let end = axis.end;
    let increment = axis.increment;
    let from = signed_of(f, e, start);
    let to = signed_of(f, e, end);
    let ok = sum_equals(f, from, to, p, increment);
    let rule = Rule::SumIs(place_of(p, increment), place_of(e, start), place_of(e, end));
    ask(ok, p, rule)
}

// ---- one field of a record against another

// The field of the point at p is 0.
fn is_zero(f: &[u8], p: u32, k: Field) -> Result<(), Mark>
    ensures { result ≡ first_fault (zero_at f.now p p k.1 (p + k.0) ∷ []) }
{
    let at = p as usize;
    let width = k.1;
    zero_at(f, at, at, width, place_of(p, k))
}

// The field of the point at p is the one at another place.
fn is_same(f: &[u8], p: u32, k: Field, other: usize) -> Result<(), Mark>
    ensures { result ≡ first_fault (same_as f.now p p k.1 (p + k.0) other ∷ []) }
{
    let at = p as usize;
    let width = k.1;
    same_as(f, at, at, width, place_of(p, k), other)
}

// The field of a record is above that of the record before it; a fault is at `place`.
fn is_above(f: &[u8], at: u32, before: u32, k: Field, place: usize) -> Result<(), Mark>
    ensures { result ≡ first_fault (above f.now at place k.1 (at + k.0) (before + k.0) ∷ []) }
{
    let width = k.1;
    let other = place_of(before, k);
    above(f, at as usize, place, width, place_of(at, k), other)
}

// ---- what the points of a track are held against

// The frame of a track, read once for all its points: where the first and the last of them stand, where the track starts, and whether it
// starts so far inside both ranges that no increment leads out of them.
#[derive(Clone, Copy)]
pub struct Frame {
    pub first: u16,
    pub last: u16,
    pub latitude: i64,
    pub longitude: i64,
    pub roomy: bool,
}

// An increment has three bytes, and no number of three bytes reaches so far.
const BEYOND: usize = 0x100_0000;

// A track that starts there starts so far inside both ranges that no increment leads out of them.
pub fn is_roomy(latitude: i64, longitude: i64) -> bool
    ensures { result ≡ true → (nat_abs latitude + half_of 3 < latitude_most) × (nat_abs longitude + half_of 3 < longitude_most) }
{
    let north = distance(latitude) <= LATITUDE_MOST - BEYOND;
    let east = distance(longitude) <= LONGITUDE_MOST - BEYOND;
    north & east
}

// The frame of the entry at e.
pub fn frame_of(f: &[u8], e: u32) -> Frame
    ensures { FrameOf f.now e result }
{
    let latitude = signed_of(f, e, Track::START_LATITUDE);
    let longitude = signed_of(f, e, Track::START_LONGITUDE);
    Frame {
        first: number_of(f, e, Track::FIRST) as u16,
        last: number_of(f, e, Track::LAST) as u16,
        latitude: latitude,
        longitude: longitude,
        roomy: is_roomy(latitude, longitude),
    }
}

// ---- the facts

// The number of the entry at e is above that of the entry before it.
// Stays (2): a right file is read by this test: with an entry's facts in its place the verdict takes 17.3 microseconds in place of 16.5.
pub fn number_obeys(f: &[u8], e: u32) -> bool
    ensures { result ≡ all_tests (number_agrees f.now e) }
{
    if is_first(e) {
        return true;
    }
    number_of(f, entry_before(e), Track::NUMBER) < number_of(f, e, Track::NUMBER)
}

// The same, as a fact.
fn number_agrees(f: &[u8], e: u32) -> Result<(), Mark>
    ensures { result ≡ first_fault (number_agrees f.now e) }
{
    if is_first(e) {
        return Ok(());
    }
    let place = place_of(e, Track::NUMBER);
    is_above(f, e, entry_before(e), Track::NUMBER, place)
}

// The first point of a track obeys.
// Stays (2): a right file is read by this test: with an entry's facts in its place the verdict takes 17.3 microseconds in place of 16.5.
pub fn opening_obeys(f: &[u8], size: u8, p: u32) -> bool
    ensures { result ≡ all_tests (opens f.now size p) }
{
    let step = size as usize;
    let position = equals(f, p, Point::POSITION, 0);
    let latitude = equals(f, p, Point::LATITUDE_INCREMENT, 0);
    let longitude = equals(f, p, Point::LONGITUDE_INCREMENT, 0);
    let second = byte_at(f, place_of(p, Point::NEAR) + step);
    let near = equals(f, p, Point::NEAR, second);
    position & (latitude & (longitude & near))
}

// The first point of a track.
fn opens_at(f: &[u8], size: u8, p: u32) -> Result<(), Mark>
    ensures { result ≡ first_fault (opens f.now size p) }
{
    let step = size as usize;
    is_zero(f, p, Point::POSITION)?;
    is_zero(f, p, Point::LATITUDE_INCREMENT)?;
    is_zero(f, p, Point::LONGITUDE_INCREMENT)?;
    let second = place_of(p, Point::NEAR) + step;
    is_same(f, p, Point::NEAR, second)
}

// A point of a track, as its first one or as a later one.
fn starts_right(f: &[u8], size: u8, first: u16, p: u32) -> Result<(), Mark>
    ensures { result ≡ first_fault (cond (ltb p (first + size)) (opens f.now size p) (rises f.now size p)) }
{
    let step = size as u32;
    if p < first as u32 + step {
        return opens_at(f, size, p);
    }
    is_above(f, p, p - step, Point::POSITION, p as usize)
}

// A point of a track obeys as every one of them has to.
// Stays (2): a right file is read by this test: with an entry's facts in its place the verdict takes 17.3 microseconds in place of 16.5.
pub fn stay_obeys(f: &[u8], e: u32, t: Frame, p: u32) -> bool
    requires { FrameOf f.now e t }
    ensures { result ≡ all_tests (stays f.now e p) }
{
    if t.roomy {
        return true;
    }
    let north = sum_lies_within(f, t.latitude, p, Point::LATITUDE_INCREMENT, LATITUDE_MOST);
    let east = sum_lies_within(
        f,
        t.longitude,
        p,
        Point::LONGITUDE_INCREMENT,
        LONGITUDE_MOST,
    );
    north & east
}

// Every point of a track.
fn stays_in(f: &[u8], e: u32, p: u32) -> Result<(), Mark>
    ensures { result ≡ first_fault (stays f.now e p) }
{
    sum_within(f, LATITUDE, e, p, LATITUDE_MOST)?;
    sum_within(f, LONGITUDE, e, p, LONGITUDE_MOST)
}

// The last point of a track obeys.
// Stays (2): a right file is read by this test: with an entry's facts in its place the verdict takes 17.3 microseconds in place of 16.5.
pub fn closing_obeys(f: &[u8], e: u32, t: Frame, p: u32) -> bool
    requires { FrameOf f.now e t }
    ensures { result ≡ all_tests (closes f.now e p) }
{
    let end = number_of(f, e, Track::END_POSITION);
    let end_north = signed_of(f, e, Track::END_LATITUDE);
    let end_east = signed_of(f, e, Track::END_LONGITUDE);
    let position = equals(f, p, Point::POSITION, end);
    let north = sum_equals(f, t.latitude, end_north, p, Point::LATITUDE_INCREMENT);
    let east = sum_equals(f, t.longitude, end_east, p, Point::LONGITUDE_INCREMENT);
    position & (north & east)
}

// A point of a track, where it is the last one.
fn ends_right(f: &[u8], e: u32, last: u16, p: u32) -> Result<(), Mark>
    ensures { result ≡ first_fault (cond (eqb p last) (closes f.now e p) []) }
{
    if p != last as u32 {
        return Ok(());
    }
    let end = place_of(e, Track::END_POSITION);
    is_same(f, p, Point::POSITION, end)?;
    sum_is(f, LATITUDE, e, p)?;
    sum_is(f, LONGITUDE, e, p)
}

// One point of the entry at e.
#[tactic(auto, using(verdict::proofs::Facts::accepted_first, verdict::proofs::Facts::refused_first), unfolding(verdict::specs::Facts::first_fault))]
fn point_agrees(f: &[u8], size: u8, e: u32, first: u16, last: u16, p: u32) -> Result<(), Mark>
    requires { (first ≡ first_of f.now e) × (last ≡ last_of f.now e) }
    ensures { result ≡ first_fault (point_agrees f.now size e p) }
{
    starts_right(f, size, first, p)?;
    stays_in(f, e, p)?;
    ends_right(f, e, last, p)
}

// One point of the entry at e obeys.
fn point_obeys(f: &[u8], size: u8, e: u32, first: u16, last: u16, p: u32) -> bool
    requires { (first ≡ first_of f.now e) × (last ≡ last_of f.now e) }
    ensures { result ≡ all_tests (point_agrees f.now size e p) }
{
    point_agrees(f, size, e, first, last, p).is_ok()
}

// A point of the entry at e obeys that is neither its first nor its last one.
fn later_obeys(f: &[u8], size: u8, e: u32, t: Frame, p: u32) -> bool
    requires { Later f.now size e t p }
    ensures { result ≡ all_tests (point_agrees f.now size e p) }
{
    if f.len() < p as usize + Point::SIZE as usize {
        return point_obeys(f, size, e, t.first, t.last, p);
    }
    let before = number_of(f, p - size as u32, Point::POSITION);
    let rises = before < number_of(f, p, Point::POSITION);
    let stays = stay_obeys(f, e, t, p);
    rises & stays
}

// Where the first of those points stands that does not obey; where each obeys, the place after them.
fn later_off(f: &[u8], size: u8, e: u32, t: Frame) -> u32
    requires { FrameOf f.now e t × (0 < size) }
    ensures { LaterOff f.now size e result }
{
    let step = size as u32;
    let last = t.last as u32;
    let mut p = t.first as u32 + step;
    // Stays (3): the place where the walk ends is the answer, and a `for` does not keep the one past its last turn.
    while p < last {
        if !later_obeys(f, size, e, t, p) {
            return p;
        }
        p = p + step;
    }
    p
}

// Where the first point of the entry at e stands that does not obey; where each obeys, a place past them all.
fn first_off(f: &[u8], size: u8, e: u32) -> u32
    requires { 0 < size }
    ensures { FirstOff f.now size e result }
{
    let t = frame_of(f, e);
    let first = t.first as u32;
    if !point_obeys(f, size, e, t.first, t.last, first) {
        return first;
    }
    let p = later_off(f, size, e, t);
    if p < t.last as u32 {
        return p;
    }
    if !point_obeys(f, size, e, t.first, t.last, p) {
        return p;
    }
    p + size as u32
}

// The entry at e and its points obey.
#[tactic(auto, using(crate::proofs::Tracks::track_tested))]
fn track_obeys(f: &[u8], size: u8, e: u32) -> bool
    requires { 0 < size }
    ensures { result ≡ all_tests (track_agrees f.now size e) }
{
    let number = number_obeys(f, e);
    let stop = number_of(f, e, Track::LAST) + size as usize;
    let off = first_off(f, size, e) as usize;
    number & (stop <= off)
}

// The points of the entry at e: the first that does not obey is the verdict.
fn points_agree(f: &[u8], size: u8, e: u32) -> Result<(), Mark>
    requires { 0 < size }
    ensures { result ≡ first_fault (flat_map (point_agrees f.now size e) (points_of f.now size e)) }
{
    let first = number_of(f, e, Track::FIRST) as u16;
    let last = number_of(f, e, Track::LAST) as u16;
    let off = first_off(f, size, e);
    if off < last as u32 + size as u32 {
        return point_agrees(f, size, e, first, last, off);
    }
    Ok(())
}

// The entry at e and its points.
#[tactic(auto, using(verdict::proofs::Facts::accepted_first, verdict::proofs::Facts::refused_first), unfolding(crate::specs::Agreement::track_agrees, verdict::specs::Facts::first_fault))]
fn track_agrees(f: &[u8], size: u8, e: u32) -> Result<(), Mark>
    requires { 0 < size }
    ensures { result ≡ first_fault (track_agrees f.now size e) }
{
    number_agrees(f, e)?;
    points_agree(f, size, e)
}

// The agreement: the facts of the first track that does not obey are the verdict. It is none of those that the
// pass came over.
pub fn check_agreement(f: &[u8], size: u8) -> Result<(), Mark>
    requires { 0 < size }
    ensures { result ≡ first_fault (agreement_facts f.now size) }
{
    let Err(from) = tracks_reached(f, size) else {
        return Ok(());
    };
    let points = points_at(f);
    for e in (from..points).step_by(Track::SIZE as usize) {
        if !track_obeys(f, size, e) {
            return track_agrees(f, size, e);
        }
    }
    Ok(())
}
