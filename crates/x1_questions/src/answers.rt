// The answer to the questions of a coordinate (01: 'Coordinate at a position').

// A coordinate, in milliarcseconds.
#[derive(Clone, Copy)]
pub struct Coordinate {
    pub latitude: i64,
    pub longitude: i64,
}
