// Tracks and positions of X.2 (g) held against X.1 (f), whose tracks are found by the words of their numbers: 11 and 12 in 01's table. Fact
// by fact, from the place on where the pass over the records stops.
ghost use Rattle.std.specs.Prelude.{◌≡◌, [], ◌∷◌, ◌+◌, Ok};
ghost use Rattle.octets.specs.Octets.{num_at};
ghost use Rattle.verdict.specs.Facts.{at_most, test, first_fault};
ghost use Rattle.x1_verdict.specs.Facts.{verdict_of};
ghost use Rattle.x2_layout.specs.inner.Bounds.{Bounded};
ghost use Rattle.x2_layout.specs.inner.Regions.{Regions};
ghost use Rattle.x2_layout.specs.inner.Walking.{Walking};
ghost use Rattle.pair.specs.inner.Tracks.{Answers, in_first_by, within_track_by};
ghost use Rattle.pair.specs.Pair.{lies, stands, reach, spot_facts, record_pair, records_pair};

use crate::pass::records_reached;
use crate::tracks::{POSITION_SIZE, TRACK_SIZE, is_found, track_at};
use octets::u32_at;
use tables::{Field, number_of, place_of};
use verdict::{Mark, Reason, Rule, fact};
use x1_lookup::Presence;
use x1_records::Track;
use x2_layout::{Layout, kind_at, size_of};
use x2_records::{Balise, Boundary, Joint, Kind, Siding, Signal, Turnout};

// The track at t, of the record at `at`, is in X.1, where this was found of it.
fn in_first(found: Option<u32>, at: u32, t: usize) -> Result<(), Mark>
    ensures { result ≡ first_fault (in_first_by found at t ∷ []) }
{
    let ok = is_found(found);
    let rule = Rule::InFirst;
    fact(ok, Reason::Track, at as usize, t, TRACK_SIZE, rule)
}

// The end position of the track that was found.
fn end_of(f: &[u8], found: Option<u32>) -> usize
    ensures { result ≡ reach f.now found }
{
    match found {
        Some(e) => number_of(f, e, Track::END_POSITION),
        None => 0,
    }
}

// The position at p is at most the end of the track that was found.
fn is_within(f: &[u8], g: &[u8], found: Option<u32>, p: usize) -> bool
    ensures { result ≡ test (at_most (num_at 4 g.now p) (reach f.now found)) }
{
    u32_at(g, p) <= end_of(f, found)
}

// The position at p is at most the end of the track at t, where this was found of it.
fn within_track(
    f: &[u8],
    g: &[u8],
    found: Option<u32>,
    at: u32,
    t: usize,
    p: usize,
) -> Result<(), Mark>
    ensures { result ≡ first_fault (within_track_by f.now g.now found at t p ∷ []) }
{
    let ok = is_within(f, g, found, p);
    let rule = Rule::WithinTrack(t);
    fact(ok, Reason::Position, at as usize, p, POSITION_SIZE, rule)
}

// The track at t, alone.
fn stands_on(f: &[u8], g: &[u8], tracks: Presence, at: u32, t: usize) -> Result<(), Mark>
    requires { Answers f.now tracks }
    ensures { result ≡ first_fault (spot_facts f.now g.now at (stands t)) }
{
    in_first(track_at(f, g, tracks, t), at, t)
}

// A track with a position on it.
fn lies_on(
    f: &[u8],
    g: &[u8],
    tracks: Presence,
    at: u32,
    track: Field,
    position: Field,
) -> Result<(), Mark>
    requires { Answers f.now tracks }
    ensures { result ≡ first_fault (spot_facts f.now g.now at (lies (at + track.0) (at + position.0))) }
{
    let t = place_of(at, track);
    let found = track_at(f, g, tracks, t);
    in_first(found, at, t)?;
    within_track(f, g, found, at, t, place_of(at, position))
}

// The three positions of a turnout, each with its own track.
fn turnout_pair(f: &[u8], g: &[u8], tracks: Presence, at: u32) -> Result<(), Mark>
    requires { Answers f.now tracks }
    ensures { result ≡ first_fault (record_pair f.now g.now Kind.Turnout at) }
{
    lies_on(
        f,
        g,
        tracks,
        at,
        Turnout::FRONT_TRACK,
        Turnout::TIP_POSITION,
    )?;
    lies_on(
        f,
        g,
        tracks,
        at,
        Turnout::NORMAL_TRACK,
        Turnout::NORMAL_POSITION,
    )?;
    lies_on(
        f,
        g,
        tracks,
        at,
        Turnout::REVERSE_TRACK,
        Turnout::REVERSE_POSITION,
    )
}

// The tracks and positions of one record.
fn record_pair(f: &[u8], g: &[u8], tracks: Presence, k: Kind, at: u32) -> Result<(), Mark>
    requires { Answers f.now tracks }
    ensures { result ≡ first_fault (record_pair f.now g.now k at) }
{
    match k {
        Kind::StartBoundary => lies_on(f, g, tracks, at, Boundary::TRACK, Boundary::POSITION),
        Kind::EndBoundary => lies_on(f, g, tracks, at, Boundary::TRACK, Boundary::POSITION),
        Kind::Turnout => turnout_pair(f, g, tracks, at),
        Kind::Balise => lies_on(f, g, tracks, at, Balise::TRACK, Balise::POSITION),
        Kind::Signal => lies_on(f, g, tracks, at, Signal::TRACK, Signal::POSITION),
        Kind::Joint => lies_on(f, g, tracks, at, Joint::TRACK, Joint::POSITION),
        Kind::Siding => stands_on(f, g, tracks, at, place_of(at, Siding::TRACK)),
    }
}

// The tracks and positions of every record from a place on: those of the first record that does not obey are the verdict. All records before
// the place obey.
fn records_told(f: &[u8], g: &[u8], l: Layout, tracks: Presence, from: usize) -> Result<(), Mark>
    requires { Answers f.now tracks × Bounded l × Walking g.now l (record_pair f.now g.now) from }
    ensures { result ≡ first_fault (records_pair f.now g.now l) }
{
    let end = l.end;
    let mut at = from;
    while at < end {
        let k = kind_at(l, at);
        record_pair(f, g, tracks, k, at as u32)?;
        at = at + size_of(g, k, at);
    }
    Ok(())
}

// The tracks and positions of every record. Both files are accepted.
pub fn records_pair(f: &[u8], g: &[u8], l: Layout) -> Result<(), Mark>
    requires { (verdict_of f.now ≡ Ok tt) × Bounded l × Regions g.now l }
    ensures { result ≡ first_fault (records_pair f.now g.now l) }
{
    let tracks = Presence::of(f);
    let from = records_reached(f, g, l, tracks);
    records_told(f, g, l, tracks, from)
}
