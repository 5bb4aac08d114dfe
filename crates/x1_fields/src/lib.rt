// The fields of X.1's header, of a track's entry and of a point (01, 'Fields'): 5 in 01's table. For an entry and for a point there are two
// functions: one tests it, and one gives the first of its facts that fails. `e` and `p` are where it starts. A test asks once whether the
// file ends inside the record, and then goes fact by fact, so that its reads need not ask it again.
#![tactic(auto, unfolding(verdict::specs::Facts::first_fault))]

ghost use Rattle.std.specs.Prelude.{◌≡◌};
ghost use Rattle.verdict.specs.Facts.{all_tests, first_fault};
ghost use Rattle.x1_fields.specs.Fields.{header_fields, entry_fields, point_fields};

use envelope::{DATA, HEADER, NUMBER_MOST, STATION};
use tables::{between, equals, exactly, lies_between, lies_within, within};
use verdict::Mark;
use x1_records::{HEADING_MOST, LATITUDE_MOST, LONGITUDE_MOST, POSITION_MOST, Point, Track};

// The fields of the header.
pub fn header_fields(f: &[u8]) -> Result<(), Mark>
    ensures { result ≡ first_fault (header_fields f.now) }
{
    between(f, HEADER, DATA, 1, NUMBER_MOST)?;
    between(f, HEADER, STATION, 1, NUMBER_MOST)
}

// Every field of the entry at e has one of its values.
// Stays (2): a right file is read by this test: with an entry's facts in its place the verdict takes 17.3 microseconds in place of 16.5.
pub fn entry_obeys(f: &[u8], e: u32) -> bool
    ensures { result ≡ all_tests (entry_fields f.now e) }
{
    if f.len() < e as usize + Track::SIZE as usize {
        return entry_fields(f, e).is_ok();
    }
    let number = lies_between(f, e, Track::NUMBER, 1, 255);
    let property = lies_between(f, e, Track::PROPERTY, 1, 5);
    let start = equals(f, e, Track::START_POSITION, 0);
    let start_north = lies_within(f, e, Track::START_LATITUDE, LATITUDE_MOST);
    let start_east = lies_within(f, e, Track::START_LONGITUDE, LONGITUDE_MOST);
    let end = lies_between(f, e, Track::END_POSITION, 0, POSITION_MOST);
    let end_north = lies_within(f, e, Track::END_LATITUDE, LATITUDE_MOST);
    let end_east = lies_within(f, e, Track::END_LONGITUDE, LONGITUDE_MOST);
    number & (property & (start & (start_north & (start_east & (end & (end_north & end_east))))))
}

// The fields of the entry at e.
pub fn entry_fields(f: &[u8], e: u32) -> Result<(), Mark>
    ensures { result ≡ first_fault (entry_fields f.now e) }
{
    between(f, e, Track::NUMBER, 1, 255)?;
    between(f, e, Track::PROPERTY, 1, 5)?;
    exactly(f, e, Track::START_POSITION, 0)?;
    within(f, e, Track::START_LATITUDE, LATITUDE_MOST)?;
    within(f, e, Track::START_LONGITUDE, LONGITUDE_MOST)?;
    between(f, e, Track::END_POSITION, 0, POSITION_MOST)?;
    within(f, e, Track::END_LATITUDE, LATITUDE_MOST)?;
    within(f, e, Track::END_LONGITUDE, LONGITUDE_MOST)
}

// Every field of the point at p has one of its values.
// Stays (2): a right file is read by this test: with an entry's facts in its place the verdict takes 17.3 microseconds in place of 16.5.
pub fn point_obeys(f: &[u8], p: u32) -> bool
    ensures { result ≡ all_tests (point_fields f.now p) }
{
    if f.len() < p as usize + Point::SIZE as usize {
        return point_fields(f, p).is_ok();
    }
    lies_between(f, p, Point::POSITION, 0, POSITION_MOST)
        && (lies_within(f, p, Point::HEADING, HEADING_MOST)
            && lies_between(f, p, Point::NEAR, 0, 1))
}

// The fields of the point at p.
pub fn point_fields(f: &[u8], p: u32) -> Result<(), Mark>
    ensures { result ≡ first_fault (point_fields f.now p) }
{
    between(f, p, Point::POSITION, 0, POSITION_MOST)?;
    within(f, p, Point::HEADING, HEADING_MOST)?;
    between(f, p, Point::NEAR, 0, 1)
}
