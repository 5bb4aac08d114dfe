// The records of X.1, track geography (01, 'X.1, track geography'; tables 2 and 3 of the standard): a track's entry and a point, with their
// sizes, their fields and their reading; where the entries start; the limits of the fields. A field is written once, with its place and its
// width. From structure version 2 on a point has a height at its end (02, ticket 11): what depends on that is told the size of a point.
#![tactic(auto)]

ghost use Rattle.std.specs.Prelude.{◌≡◌, ◌+◌};
ghost use Rattle.x1_records.specs.Tracks.{track_at, height_at, point_at, points_in};
ghost use Rattle.x1_records.specs.Places.{point_size, least_length_in};

use octets::Width;
use rules::quotient;
use tables::{Field, number_of, signed_of};

// A track's entry, table 2, and the size of the track's points.
#[derive(Clone, Copy)]
pub struct Track {
    pub number: usize,
    pub property: usize,
    pub start_position: usize,
    pub start_latitude: i64,
    pub start_longitude: i64,
    pub end_position: usize,
    pub end_latitude: i64,
    pub end_longitude: i64,
    pub first: u16,
    pub last: u16,
    pub point_size: u8,
}

// A point, table 3. The two increments are what is added to the track's start to give the point's latitude and longitude.
#[derive(Clone, Copy)]
pub struct Point {
    pub position: usize,
    pub latitude_increment: i64,
    pub longitude_increment: i64,
    pub heading: i64,
    pub near: usize,
    pub height: Option<i64>,
}

// The fields of the entry, and the entry's size.
impl Track {
    pub const NUMBER: Field = Field(0, Width::One);

    pub const PROPERTY: Field = Field(1, Width::One);

    pub const START_POSITION: Field = Field(2, Width::Four);

    pub const START_LATITUDE: Field = Field(6, Width::Four);

    pub const START_LONGITUDE: Field = Field(10, Width::Four);

    pub const END_POSITION: Field = Field(14, Width::Four);

    pub const END_LATITUDE: Field = Field(18, Width::Four);

    pub const END_LONGITUDE: Field = Field(22, Width::Four);

    pub const FIRST: Field = Field(26, Width::Two);

    pub const LAST: Field = Field(28, Width::Two);

    pub const SIZE: u8 = 30;

    // The entry that starts at a place, of a track with points of a size.
    pub fn read(s: &[u8], size: u8, at: u16) -> Self
        ensures { result ≡ track_at s.now size at }
    {
        let start = at as u32;
        Track {
            number: number_of(s, start, Self::NUMBER),
            property: number_of(s, start, Self::PROPERTY),
            start_position: number_of(s, start, Self::START_POSITION),
            start_latitude: signed_of(s, start, Self::START_LATITUDE),
            start_longitude: signed_of(s, start, Self::START_LONGITUDE),
            end_position: number_of(s, start, Self::END_POSITION),
            end_latitude: signed_of(s, start, Self::END_LATITUDE),
            end_longitude: signed_of(s, start, Self::END_LONGITUDE),
            first: number_of(s, start, Self::FIRST) as u16,
            last: number_of(s, start, Self::LAST) as u16,
            point_size: size,
        }
    }

    // How many points the track has.
    pub fn points(self) -> usize
        ensures { result ≡ points_in self.point_size self.first self.last }
    {
        let first = self.first;
        let last = self.last;
        if last < first {
            return 0;
        }
        quotient((last - first) as usize, self.point_size as usize) + 1
    }
}

// The fields of the point, the height the last of them, and the point's size without and with a height.
impl Point {
    pub const POSITION: Field = Field(0, Width::Four);

    pub const LATITUDE_INCREMENT: Field = Field(4, Width::Three);

    pub const LONGITUDE_INCREMENT: Field = Field(7, Width::Three);

    pub const HEADING: Field = Field(10, Width::Two);

    pub const NEAR: Field = Field(12, Width::One);

    pub const SIZE: u8 = 13;

    pub const HEIGHT: Field = Field(Self::SIZE, Width::Two);

    pub const SIZE_WITH_HEIGHT: u8 = 15;

    // The height of the point at a place, where points of the size have one.
    fn height(s: &[u8], size: u8, at: u16) -> Option<i64>
        ensures { result ≡ height_at s.now size at }
    {
        if size < Self::SIZE_WITH_HEIGHT {
            return None;
        }
        Some(signed_of(s, at as u32, Self::HEIGHT))
    }

    // The point of a size that starts at a place.
    pub fn read(s: &[u8], size: u8, at: u16) -> Self
        ensures { result ≡ point_at s.now size at }
    {
        let start = at as u32;
        Point {
            position: number_of(s, start, Self::POSITION),
            latitude_increment: signed_of(s, start, Self::LATITUDE_INCREMENT),
            longitude_increment: signed_of(s, start, Self::LONGITUDE_INCREMENT),
            heading: signed_of(s, start, Self::HEADING),
            near: number_of(s, start, Self::NEAR),
            height: Self::height(s, size, at),
        }
    }
}

// One of a track's two coordinates: its start and its end, fields of the entry, and what a point adds to the start, a field of the point.
#[derive(Clone, Copy)]
pub struct Axis {
    pub start: Field,
    pub end: Field,
    pub increment: Field,
}

pub const LATITUDE: Axis = Axis {
    start: Track::START_LATITUDE,
    end: Track::END_LATITUDE,
    increment: Point::LATITUDE_INCREMENT,
};

pub const LONGITUDE: Axis = Axis {
    start: Track::START_LONGITUDE,
    end: Track::END_LONGITUDE,
    increment: Point::LONGITUDE_INCREMENT,
};

// The track count, the last field of the header, and where the entries start after it.
pub const COUNT: Field = Field(7, Width::One);

pub const ENTRIES: u32 = 8;

// The structure versions: from which one on a point has a height, and the newest one that is known.
pub const HEIGHTS_FROM: usize = 2;

pub const NEWEST_VERSION: usize = 2;

// The size of a point in a structure version.
pub fn point_size(version: usize) -> u8
    ensures { result ≡ point_size version }
{
    if version < HEIGHTS_FROM {
        return Point::SIZE;
    }
    Point::SIZE_WITH_HEIGHT
}

// The least length of a file: in any structure version, and in one with heights.
pub const LEAST_LENGTH: usize = 68;

pub const LEAST_WITH_HEIGHTS: usize = 72;

// The least length of a file in its structure version.
pub fn least_length(version: usize) -> usize
    ensures { result ≡ least_length_in version }
{
    if version < HEIGHTS_FROM {
        return LEAST_LENGTH;
    }
    LEAST_WITH_HEIGHTS
}

// The limits of the fields.

pub const LATITUDE_MOST: usize = 324000000;

pub const LONGITUDE_MOST: usize = 648000000;

pub const POSITION_MOST: usize = 2147483647;

pub const HEADING_MOST: usize = 31416;
