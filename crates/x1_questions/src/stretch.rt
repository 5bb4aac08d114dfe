// The coordinate at a position (01, 'Coordinate at a position'): the stretch between two neighbouring points that the position lies on, and
// each coordinate on it. `size` is the size of a point, e where the track's entry starts, p where a point does.
ghost use Rattle.std.specs.Prelude.{◌≡◌, ◌<◌};
ghost use Rattle.x1_verdict.specs.Agreement.{axis_sum};
ghost use Rattle.rounding.specs.Nearest.{coordinate_of};
ghost use Rattle.rounding.specs.Way.{Limits};
ghost use Rattle.x1_questions.specs.Stretch.{stretch_of, coordinate_on};
ghost use Rattle.x1_questions.specs.inner.Requires.{OnStretch};

use crate::answers::Coordinate;
use tables::number_of;
use x1_records::{Axis, LATITUDE, LONGITUDE, Point, Track};
use x1_verdict::sum_of;

// The place of the point where the stretch starts that position x lies on.
pub fn find_stretch(f: &[u8], size: u8, e: u32, x: usize) -> Option<u32>
    requires { 0 < size }
    ensures { result ≡ stretch_of f.now size e x }
{
    let first = number_of(f, e, Track::FIRST) as u32;
    let last = number_of(f, e, Track::LAST) as u32;
    for p in (first..last).step_by(size as usize) {
        if x <= number_of(f, p + size as u32, Point::POSITION) {
            return Some(p);
        }
    }
    None
}

// One coordinate, t of the den centimetres on the way from the point at p to the one at `next`.
fn along(f: &[u8], axis: Axis, e: u32, p: u32, next: u32, t: usize, den: usize) -> i64
    requires { Limits (axis_sum f.now axis e p) (axis_sum f.now axis e next) t den }
    ensures { result ≡ coordinate_of (axis_sum f.now axis e p) (axis_sum f.now axis e next) t den }
{
    let y0 = sum_of(f, axis, e, p);
    let y1 = sum_of(f, axis, e, next);
    // The numbers are inside rounding's limits, so the `else` is never reached; the language has it stand.
    let Some(y) = rounding::coordinate(y0, y1, t, den) else {
        return 0;
    };
    y
}

// Both coordinates at position x, on the stretch that starts with the point at p.
pub fn coordinate_on(f: &[u8], size: u8, e: u32, x: usize, p: u32) -> Coordinate
    requires { OnStretch f.now size e x p }
    ensures { result ≡ coordinate_on f.now size e x p }
{
    let next = p + size as u32;
    let from = number_of(f, p, Point::POSITION);
    let to = number_of(f, next, Point::POSITION);
    let t = x - from;
    let den = to - from;
    Coordinate {
        latitude: along(f, LATITUDE, e, p, next, t, den),
        longitude: along(f, LONGITUDE, e, p, next, t, den),
    }
}
