// Degrees for the plan room (02, ticket 14): the coordinate of a point, and that at a position. The milliarcseconds remain the record, and beside
// them stand the degrees.
#![tactic(auto)]

ghost use Rattle.std.specs.Prelude.{◌≡◌};
ghost use Rattle.x1_questions.specs.Coordinate.{CoordinateRange};
ghost use Rattle.x1_degrees.specs.Answers.{coordinate_in, degrees_in};
ghost use Rattle.x1_degrees.specs.Questions.{surveyed_at, with_degrees, degrees_asked, point_degrees_of};
ghost use Rattle.x1_degrees.specs.inner.Ranged.{Ranged};

use degrees::{Degrees, in_degrees};
use verdict::Fault;
use x1_questions::Coordinate;

// A coordinate in milliarcseconds, and beside it in degrees.
#[derive(Clone, Copy)]
pub struct Surveyed {
    pub coordinate: Coordinate,
    pub degrees: Degrees,
}

// The milliarcseconds of an answer; of a refusal 0.
pub fn coordinate_in(answer: Result<Surveyed, Fault>) -> Coordinate
    ensures { result ≡ coordinate_in answer }
{
    match answer {
        Ok(s) => s.coordinate,
        Err(_) => Coordinate {
            latitude: 0,
            longitude: 0,
        },
    }
}

// The degrees of an answer; of a refusal 0.0.
pub fn degrees_in(answer: Result<Surveyed, Fault>) -> Degrees
    ensures { result ≡ degrees_in answer }
{
    match answer {
        Ok(s) => s.degrees,
        Err(_) => Degrees {
            latitude: 0.0,
            longitude: 0.0,
        },
    }
}

// Sets the degrees beside a coordinate. In its range it is a number of 32 bits.
fn beside(coordinate: Coordinate) -> Surveyed
    requires { CoordinateRange coordinate }
    ensures { result ≡ surveyed_at coordinate }
{
    let degrees = in_degrees(coordinate.latitude as i32, coordinate.longitude as i32);
    Surveyed {
        coordinate,
        degrees,
    }
}

// Sets them beside the coordinate of an answer.
fn with_degrees(a: Result<Coordinate, Fault>) -> Result<Surveyed, Fault>
    requires { Ranged a }
    ensures { result ≡ with_degrees a }
{
    Ok(beside(a?))
}

// The coordinate at a position of the track with a number.
pub fn degrees_at(f: &[u8], number: usize, position: usize) -> Result<Surveyed, Fault>
    ensures { result ≡ degrees_asked f.now number position }
{
    with_degrees(x1_questions::coordinate(f, number, position))
}

// The coordinate of the point of an index in the track of an index.
pub fn point_degrees(f: &[u8], track: usize, index: usize) -> Result<Surveyed, Fault>
    ensures { result ≡ point_degrees_of f.now track index }
{
    with_degrees(x1_questions::point_coordinate(f, track, index))
}
