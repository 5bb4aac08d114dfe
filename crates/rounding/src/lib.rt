// The coordinate between two points (01, 'Coordinate at a position'): linear, the nearest whole number, a half going up (north, east).
// `coordinate` answers for all numbers; what it needs so that no step leaves the machine's range are limits that hold all that 01 allows.
#![tactic(auto)]

ghost use Rattle.std.specs.Prelude.{◌≡◌, ◌*◌, ◌^◌, ◌≤◌, ◌<◌, nat_abs};
ghost use Rattle.std.specs.Int.Signed.{shr_z};
ghost use Rattle.rounding.specs.Nearest.{nearest_of, exact_of};
ghost use Rattle.rounding.specs.Way.{farthest, longest, inside_of, way_of, Limits};

// How far from 0 a coordinate may be. 01 allows no more than 648000000.
const FARTHEST: usize = 0x8000_0000;

// How many centimetres a way may be long: the highest position of 01.
const LONGEST: usize = 0x7FFF_FFFF;

// The largest whole number that is at most z / d.
fn floor(z: i64, d: usize) -> i64
    requires { (0 < d) × (d < 2 ^ 63) }
    ensures { result ≡ shr_z z d }
{
    z.div_euclid(d as i64)
}

// The whole number nearest num / den, a half going up.
fn nearest(num: i64, den: usize) -> i64
    requires { (0 < den) × (den ≤ longest) × (nat_abs num ≤ farthest * den) }
    ensures { result ≡ nearest_of num den }
{
    floor(2 * num + den as i64, 2 * den)
}

// The exact coordinate t of the den centimetres on the way from y0 to y1, as a fraction over den: what stands above the line.
fn exact(y0: i64, y1: i64, t: usize, den: usize) -> i64
    requires { Limits y0 y1 t den }
    ensures { result ≡ exact_of y0 y1 t den }
{
    y0 * den as i64 + (y1 - y0) * t as i64
}

// Both ends and the length of the way are inside the limits, the way has a length, and t is on it.
fn inside(y0: i64, y1: i64, t: usize, den: usize) -> bool
    ensures { result ≡ inside_of y0 y1 t den }
{
    (octets::distance(y0) <= FARTHEST)
        & ((octets::distance(y1) <= FARTHEST) & ((t <= den) & ((0 < den) & (den <= LONGEST))))
}

// The coordinate t of the den centimetres on the way from y0 to y1; none where this is outside the limits.
pub fn coordinate(y0: i64, y1: i64, t: usize, den: usize) -> Option<i64>
    ensures { result ≡ way_of y0 y1 t den }
{
    if inside(y0, y1, t, den) {
        Some(nearest(exact(y0, y1, t, den), den))
    } else {
        None
    }
}
