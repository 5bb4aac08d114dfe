// Degrees for a drawing program (02, ticket 14): whole milliarcseconds as a binary64 number of degrees, by one division, and such a number's
// bits.
#![tactic(auto)]

ghost use Rattle.std.specs.Prelude.{◌≡◌};
ghost use Rattle.std.specs.Float.{binary64};
ghost use Rattle.std.specs.Float.Ieee.{to_bits};
ghost use Rattle.degrees.specs.Degrees.{in_degrees};

// How many milliarcseconds a degree has.
const DEGREE: f64 = 3600000.0;

// The bits of a NaN, where a number has to be said for it.
const NOT_A_NUMBER: u64 = 0x7ff8_0000_0000_0000;

// A latitude and a longitude in degrees.
#[derive(Clone, Copy)]
pub struct Degrees {
    pub latitude: f64,
    pub longitude: f64,
}

// A latitude and a longitude of whole milliarcseconds, in degrees. A binary64 holds every number of 32 bits, so the division alone rounds.
pub fn in_degrees(latitude: i32, longitude: i32) -> Degrees
    ensures { result ≡ in_degrees latitude longitude }
{
    Degrees {
        latitude: latitude as f64 / DEGREE,
        longitude: longitude as f64 / DEGREE,
    }
}

// The bits of a number. No answer holds a NaN.
pub fn bits_of(x: f64) -> u64
    ensures { result ≡ to_bits binary64 x }
{
    if x.is_nan() {
        return NOT_A_NUMBER;
    }
    f64::to_bits(x)
}
