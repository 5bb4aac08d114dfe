// The answers in degrees too: the milliarcseconds, and then the bits of each number of degrees, so that nothing of it is lost.
ghost use Rattle.std.specs.Prelude.{◌≡◌};
ghost use Rattle.verdict.specs.Answers.{answer_number};
ghost use Rattle.x1_degrees.specs.Answers.{degrees_answer};
ghost use Rattle.x1_degrees.specs.Questions.{degrees_asked, point_degrees_of};

use crate::geography_answers::{coordinate_lines, refused};
use degrees::bits_of;
use std::io::Stdout;
use text::bits_line;
use verdict::Fault;
use x1_degrees::{Surveyed, degrees_at};

fn surveyed_lines(out: Stdout, s: Surveyed) {
    let coordinate = s.coordinate;
    let degrees = s.degrees;
    coordinate_lines(out, coordinate);
    bits_line(out, b"latitude_degrees", bits_of(degrees.latitude));
    bits_line(out, b"longitude_degrees", bits_of(degrees.longitude));
}

// An answer in degrees.
fn told(out: Stdout, a: Result<Surveyed, Fault>) -> usize
    ensures { result ≡ answer_number (degrees_answer a) }
{
    match a {
        Ok(s) => {
            surveyed_lines(out, s);
            0
        }
        Err(fault) => refused(out, fault),
    }
}

// The question degrees.
pub fn degrees(out: Stdout, f: &[u8], number: usize, position: usize) -> usize
    ensures { result ≡ answer_number (degrees_answer (degrees_asked f.now number position)) }
{
    told(out, degrees_at(f, number, position))
}

// The question point-degrees.
pub fn point_degrees(out: Stdout, f: &[u8], track: usize, index: usize) -> usize
    ensures { result ≡ answer_number (degrees_answer (point_degrees_of f.now track index)) }
{
    told(out, x1_degrees::point_degrees(f, track, index))
}
