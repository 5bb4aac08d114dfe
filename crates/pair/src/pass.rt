// A pass over the records of X.2 (g), kind by kind in stored order, as far as their tracks and positions obey. Each position asks for its track
// in X.1 (f) once. Where a test here says yes, the facts hold; where it says no, nothing is claimed, and the facts are told one by one.
ghost use Rattle.std.specs.Prelude.{◌≡◌, true, ◌+◌, ◌≤◌};
ghost use Rattle.verdict.specs.Facts.{same, at_most, both, test, all_tests};
ghost use Rattle.x2_records.specs.declared.Kind.TheVariants as kind;
ghost use Rattle.x2_layout.specs.inner.Bounds.{place_most, Bounded};
ghost use Rattle.x2_layout.specs.inner.Regions.{Regions};
ghost use Rattle.x2_layout.specs.inner.Walking.{Walking};
ghost use Rattle.x2_verdict.specs.inner.Passes.{Sort};
ghost use Rattle.pair.specs.inner.Tracks.{Answers, OneSpot, Onward};
ghost use Rattle.pair.specs.Pair.{lies, present, reach, spot_facts, record_pair};

use crate::tracks::{POSITION_SIZE, is_found, track_at};
use octets::u32_at;
use tables::{Field, number_of, place_of};
use x1_lookup::Presence;
use x1_records::Track;
use x2_layout::{Layout, size_of};
use x2_records::{Balise, Boundary, Joint, Kind, Siding, Signal, Turnout};

// A track was found, its entry lies inside X.1, and a position is at most its end.
fn reaches(f: &[u8], found: Option<u32>, position: usize) -> bool
    ensures { result ≡ true → test (both (same (present found) 1) (at_most position (reach f.now found))) ≡ true }
{
    match found {
        Some(e) => {
            if f.len() < e as usize + Track::SIZE as usize {
                return false;
            }
            position <= number_of(f, e, Track::END_POSITION)
        }
        None => false,
    }
}

// A position, which lies inside X.2, is on its track.
fn lies_obeys(f: &[u8], g: &[u8], tracks: Presence, at: u32, track: Field, position: Field) -> bool
    requires { Answers f.now tracks }
    ensures { result ≡ true → all_tests (spot_facts f.now g.now at (lies (at + track.0) (at + position.0))) ≡ true }
{
    let p = place_of(at, position);
    if g.len() < p + POSITION_SIZE {
        return false;
    }
    reaches(f, track_at(f, g, tracks, place_of(at, track)), u32_at(g, p))
}

// The three positions of a turnout are on their tracks.
fn turnout_obeys(f: &[u8], g: &[u8], tracks: Presence, at: u32) -> bool
    requires { Answers f.now tracks }
    ensures { result ≡ true → all_tests (record_pair f.now g.now kind.Turnout at) ≡ true }
{
    let tip = lies_obeys(
        f,
        g,
        tracks,
        at,
        Turnout::FRONT_TRACK,
        Turnout::TIP_POSITION,
    );
    let normal = lies_obeys(
        f,
        g,
        tracks,
        at,
        Turnout::NORMAL_TRACK,
        Turnout::NORMAL_POSITION,
    );
    let reverse = lies_obeys(
        f,
        g,
        tracks,
        at,
        Turnout::REVERSE_TRACK,
        Turnout::REVERSE_POSITION,
    );
    tip & (normal & reverse)
}

// The records of a kind that has one position, from a place on and before another: where the first of them starts whose position is not on its
// track, or where they end.
fn sort_reached(
    f: &[u8],
    g: &[u8],
    tracks: Presence,
    k: Kind,
    from: usize,
    until: usize,
    track: Field,
    position: Field,
) -> usize
    requires { Answers f.now tracks × OneSpot f.now g.now k track position × (until ≤ place_most) }
    ensures { Onward f.now g.now k from until result }
{
    let mut at = from;
    while at < until {
        if !lies_obeys(f, g, tracks, at as u32, track, position) {
            return at;
        }
        at = at + size_of(g, k, at);
    }
    at
}

// The same of the turnouts, which have three.
fn turnouts_reached(f: &[u8], g: &[u8], tracks: Presence, from: usize, until: usize) -> usize
    requires { Answers f.now tracks × (until ≤ place_most) }
    ensures { Onward f.now g.now kind.Turnout from until result }
{
    let mut at = from;
    while at < until {
        if !turnout_obeys(f, g, tracks, at as u32) {
            return at;
        }
        at = at + Turnout::SIZE;
    }
    at
}

// The same of the sidings, which have a track alone.
fn sidings_reached(f: &[u8], g: &[u8], tracks: Presence, from: usize, until: usize) -> usize
    requires { Answers f.now tracks × (until ≤ place_most) }
    ensures { Onward f.now g.now kind.Siding from until result }
{
    let mut at = from;
    while at < until {
        if !is_found(track_at(f, g, tracks, place_of(at as u32, Siding::TRACK))) {
            return at;
        }
        at = at + Siding::SIZE;
    }
    at
}

// The same of the records of any kind, where all records before them obey.
fn kind_reached(
    f: &[u8],
    g: &[u8],
    l: Layout,
    tracks: Presence,
    k: Kind,
    from: usize,
    until: usize,
) -> usize
    requires { Answers f.now tracks × Bounded l × Sort l k from until × Walking g.now l (record_pair f.now g.now) from }
    ensures { Walking g.now l (record_pair f.now g.now) result }
{
    match k {
        Kind::StartBoundary => sort_reached(
            f,
            g,
            tracks,
            k,
            from,
            until,
            Boundary::TRACK,
            Boundary::POSITION,
        ),
        Kind::EndBoundary => sort_reached(
            f,
            g,
            tracks,
            k,
            from,
            until,
            Boundary::TRACK,
            Boundary::POSITION,
        ),
        Kind::Turnout => turnouts_reached(f, g, tracks, from, until),
        Kind::Balise => sort_reached(
            f,
            g,
            tracks,
            k,
            from,
            until,
            Balise::TRACK,
            Balise::POSITION,
        ),
        Kind::Signal => sort_reached(
            f,
            g,
            tracks,
            k,
            from,
            until,
            Signal::TRACK,
            Signal::POSITION,
        ),
        Kind::Joint => sort_reached(f, g, tracks, k, from, until, Joint::TRACK, Joint::POSITION),
        Kind::Siding => sidings_reached(f, g, tracks, from, until),
    }
}

// All records: where the first of them starts that does not obey, or End. The records of a kind end where those of the next start.
pub fn records_reached(f: &[u8], g: &[u8], l: Layout, tracks: Presence) -> usize
    requires { Answers f.now tracks × Bounded l × Regions g.now l }
    ensures { Walking g.now l (record_pair f.now g.now) result }
{
    let mut at = kind_reached(f, g, l, tracks, Kind::StartBoundary, l.starts, l.ends);
    if at != l.ends {
        return at;
    }
    at = kind_reached(f, g, l, tracks, Kind::EndBoundary, l.ends, l.turnouts);
    if at != l.turnouts {
        return at;
    }
    at = kind_reached(f, g, l, tracks, Kind::Turnout, l.turnouts, l.balises);
    if at != l.balises {
        return at;
    }
    at = kind_reached(f, g, l, tracks, Kind::Balise, l.balises, l.signals);
    if at != l.signals {
        return at;
    }
    at = kind_reached(f, g, l, tracks, Kind::Signal, l.signals, l.joints);
    if at != l.joints {
        return at;
    }
    at = kind_reached(f, g, l, tracks, Kind::Joint, l.joints, l.sidings);
    if at != l.sidings {
        return at;
    }
    kind_reached(f, g, l, tracks, Kind::Siding, l.sidings, l.end)
}
