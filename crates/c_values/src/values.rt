// The values of each answer, in the order of their definitions.
ghost use Rattle.std.specs.Prelude.{◌≡◌, ◌∷◌};
ghost use Rattle.envelope.specs.Header.{header_values};
ghost use Rattle.x1_records.specs.Tracks.{height_values};
ghost use Rattle.x1_questions.specs.Answers.{track_values, point_values, coordinate_values};
ghost use Rattle.x2_verdict.specs.Answers.{named_header_values, value_count, boundary_fields, filled, record_values};
ghost use Rattle.route_lister.specs.Answered.{tally_values};
ghost use Rattle.c_values.specs.Words.{value_words, halves};
ghost use Rattle.c_values.specs.Degrees.{surveyed_values};

use crate::words::{OVER_WORD, signed_word, word};
use degrees::bits_of;
use envelope::Header;
use names::Name;
use route_walks::Tally;
use x1_degrees::Surveyed;
use x1_questions::Coordinate;
use x1_records::{Point, Track};
use x2_records::{Balise, Boundary, Joint, Record, Siding, Signal, Turnout};
use x2_verdict::NamedHeader;

// How many values an answer has.
pub const HEADER_VALUES: usize = 3;

pub const NAMED_HEADER_VALUES: usize = 5;

pub const TRACK_VALUES: usize = 11;

pub const POINT_VALUES: usize = 7;

const HEIGHT_VALUES: usize = 2;

pub const COORDINATE_VALUES: usize = 2;

const BITS_VALUES: usize = 2;

pub const DEGREES_VALUES: usize = 6;

pub const RECORD_VALUES: usize = 12;

pub const ROUTES_VALUES: usize = 3;

// The number of each kind of record, in stored order.
const START_BOUNDARY: usize = 1;

const END_BOUNDARY: usize = 2;

const TURNOUT: usize = 3;

const BALISE: usize = 4;

const SIGNAL: usize = 5;

const JOINT: usize = 6;

const SIDING: usize = 7;

// The header that both files have alike.
pub fn header_words(h: Header) -> [u32; HEADER_VALUES]
    ensures { result ≡ value_words (header_values h) }
{
    [word(h.structure), word(h.data), word(h.station)]
}

// The header of an X.2 file, with the place of the station's name and how many bytes it has.
pub fn named_header_words(h: NamedHeader) -> [u32; NAMED_HEADER_VALUES]
    ensures { result ≡ value_words (named_header_values h) }
{
    let header = h.header;
    [
        word(header.structure),
        word(header.data),
        word(header.station),
        word(h.name),
        word(h.name_bytes),
    ]
}

// A track.
pub fn track_words(t: Track) -> [u32; TRACK_VALUES]
    ensures { result ≡ value_words (track_values t) }
{
    [
        word(t.number),
        word(t.property),
        word(t.start_position),
        signed_word(t.start_latitude),
        signed_word(t.start_longitude),
        word(t.end_position),
        signed_word(t.end_latitude),
        signed_word(t.end_longitude),
        word(t.first as usize),
        word(t.last as usize),
        word(t.points()),
    ]
}

// Whether a point has a height, and the height.
fn height_words(h: Option<i64>) -> [u32; HEIGHT_VALUES]
    ensures { result ≡ value_words (height_values h) }
{
    match h {
        Some(z) => [1, signed_word(z)],
        None => [0, 0],
    }
}

// A point, its height last.
pub fn point_words(p: Point) -> [u32; POINT_VALUES]
    ensures { result ≡ value_words (point_values p) }
{
    let height = p.height;
    let words = height_words(height);
    [
        word(p.position),
        signed_word(p.latitude_increment),
        signed_word(p.longitude_increment),
        signed_word(p.heading),
        word(p.near),
        words[0],
        words[1],
    ]
}

// A coordinate.
pub fn coordinate_words(c: Coordinate) -> [u32; COORDINATE_VALUES]
    ensures { result ≡ value_words (coordinate_values c) }
{
    [signed_word(c.latitude), signed_word(c.longitude)]
}

// The bits of a binary64, low four bytes first.
fn bits_words(bits: u64) -> [u32; BITS_VALUES]
    ensures { result ≡ value_words (halves bits) }
{
    let n = bits as usize;
    [word(n % OVER_WORD), word(n / OVER_WORD)]
}

// A coordinate, and the same in degrees.
pub fn degrees_words(s: Surveyed) -> [u32; DEGREES_VALUES]
    ensures { result ≡ value_words (surveyed_values s) }
{
    let coordinate = s.coordinate;
    let degrees = s.degrees;
    let latitude = bits_words(bits_of(degrees.latitude));
    let longitude = bits_words(bits_of(degrees.longitude));
    [
        signed_word(coordinate.latitude),
        signed_word(coordinate.longitude),
        latitude[0],
        latitude[1],
        longitude[0],
        longitude[1],
    ]
}

// A boundary of either kind.
fn boundary_words(kind: usize, b: Boundary) -> [u32; RECORD_VALUES]
    ensures { result ≡ value_words (filled value_count (kind ∷ boundary_fields b)) }
{
    [
        word(kind),
        word(b.entry),
        word(b.link),
        word(b.neighbour_station),
        word(b.neighbour_type),
        word(b.neighbour_track),
        word(b.position),
        word(b.track),
        0,
        0,
        0,
        0,
    ]
}

// A turnout.
fn turnout_words(t: Turnout) -> [u32; RECORD_VALUES]
    ensures { result ≡ value_words (record_values (Record.Turnout t)) }
{
    let direction = t.direction;
    [
        word(TURNOUT),
        word(t.number),
        word(direction.number()),
        word(t.tip_position),
        word(t.normal_position),
        word(t.reverse_position),
        word(t.front),
        word(t.normal),
        word(t.reverse),
        word(t.front_track),
        word(t.normal_track),
        word(t.reverse_track),
    ]
}

// A balise.
fn balise_words(b: Balise) -> [u32; RECORD_VALUES]
    ensures { result ≡ value_words (record_values (Record.Balise b)) }
{
    let nature = b.nature;
    let direction = b.direction;
    [
        word(BALISE),
        word(b.previous),
        word(b.next),
        word(b.number),
        word(b.size),
        word(nature.number()),
        word(direction.number()),
        word(b.position),
        word(b.track),
        word(b.rank),
        word(b.count),
        word(b.message),
    ]
}

// A signal.
fn signal_words(s: Signal) -> [u32; RECORD_VALUES]
    ensures { result ≡ value_words (record_values (Record.Signal s)) }
{
    let name: Name = s.name;
    let facing = s.direction;
    let duty = s.duty;
    [
        word(SIGNAL),
        word(s.previous),
        word(s.next),
        word(name.place),
        word(name.bytes),
        word(s.position),
        word(s.track),
        word(facing.number()),
        word(duty.number()),
        0,
        0,
        0,
    ]
}

// A joint.
fn joint_words(j: Joint) -> [u32; RECORD_VALUES]
    ensures { result ≡ value_words (record_values (Record.Joint j)) }
{
    let name: Name = j.name;
    [
        word(JOINT),
        word(j.previous),
        word(j.next),
        word(name.place),
        word(name.bytes),
        word(j.position),
        word(j.track),
        0,
        0,
        0,
        0,
        0,
    ]
}

// A siding.
fn siding_words(s: Siding) -> [u32; RECORD_VALUES]
    ensures { result ≡ value_words (record_values (Record.Siding s)) }
{
    let name: Name = s.name;
    let up: Name = s.up_signal;
    let down: Name = s.down_signal;
    [
        word(SIDING),
        word(name.place),
        word(name.bytes),
        word(s.track),
        word(s.up_balise),
        word(up.place),
        word(up.bytes),
        word(s.down_balise),
        word(down.place),
        word(down.bytes),
        0,
        0,
    ]
}

// A record: its kind, its fields, and zeros up to so many values.
pub fn record_words(record: Record) -> [u32; RECORD_VALUES]
    ensures { result ≡ value_words (record_values «record») }
{
    match record {
        Record::StartBoundary(b) => boundary_words(START_BOUNDARY, b),
        Record::EndBoundary(b) => boundary_words(END_BOUNDARY, b),
        Record::Turnout(t) => turnout_words(t),
        Record::Balise(b) => balise_words(b),
        Record::Signal(s) => signal_words(s),
        Record::Joint(j) => joint_words(j),
        Record::Siding(s) => siding_words(s),
    }
}

// The counts of a list of routes.
pub fn routes_words(t: Tally) -> [u32; ROUTES_VALUES]
    ensures { result ≡ value_words (tally_values t) }
{
    [word(t.routes), word(t.words), word(t.walks)]
}
