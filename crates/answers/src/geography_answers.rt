// The answers about an X.1 file.
ghost use Rattle.std.specs.Prelude.{◌≡◌};
ghost use Rattle.verdict.specs.Reasons.{number_of, number_in};
ghost use Rattle.verdict.specs.Answers.{answer_number};
ghost use Rattle.x1_verdict.specs.Facts.{verdict_by, verdict_of};
ghost use Rattle.x1_questions.specs.Questions.{track_of, point_of, coordinate_asked};
ghost use Rattle.x1_questions.specs.Answers.{track_answer, point_answer, coordinate_answer};

use std::io::Stdout;
use text::{head, line, lines, signed_line, text_line};
use verdict::Fault;
use x1_questions::Coordinate;
use x1_records::{Point, Track};

// A refusal.
pub fn refused(out: Stdout, fault: Fault) -> usize
    ensures { result ≡ number_of fault.reason }
{
    let n = fault.number();
    head(out, b"answer", n, fault.place);
    n
}

// The first line of what is answered and not refused.
pub fn answered(out: Stdout) {
    head(out, b"answer", 0, 0);
}

// A verdict.
pub fn judged(out: Stdout, v: Result<(), Fault>) -> usize
    ensures { result ≡ number_in v }
{
    match v {
        Ok(()) => {
            answered(out);
            0
        }
        Err(fault) => refused(out, fault),
    }
}

// The question x1.
pub fn x1(out: Stdout, f: &[u8]) -> usize
    ensures { result ≡ number_in (verdict_of f.now) }
{
    judged(out, x1_verdict::verdicts::verdict_of(f))
}

// The question x1-version-1.
pub fn x1_version_1(out: Stdout, f: &[u8]) -> usize
    ensures { result ≡ number_in (verdict_by 1 f.now) }
{
    judged(out, x1_verdict::verdicts::version_1_verdict(f))
}

fn start_lines(out: Stdout, t: Track) {
    line(out, b"start_position", t.start_position);
    signed_line(out, b"start_latitude", t.start_latitude);
    signed_line(out, b"start_longitude", t.start_longitude);
}

fn end_lines(out: Stdout, t: Track) {
    line(out, b"end_position", t.end_position);
    signed_line(out, b"end_latitude", t.end_latitude);
    signed_line(out, b"end_longitude", t.end_longitude);
}

fn track_lines(out: Stdout, t: Track) {
    answered(out);
    let name = [t.number, t.property];
    lines(out, b"number property", &name);
    start_lines(out, t);
    end_lines(out, t);
    let points = [t.first as usize, t.last as usize, t.points()];
    lines(out, b"first_offset last_offset points", &points);
}

// The question track.
pub fn track(out: Stdout, f: &[u8], index: usize) -> usize
    ensures { result ≡ answer_number (track_answer (track_of f.now index)) }
{
    match x1_questions::track(f, index) {
        Ok(t) => {
            track_lines(out, t);
            0
        }
        Err(fault) => refused(out, fault),
    }
}

// A point's height; a dash for none.
fn height_line(out: Stdout, h: Option<i64>) {
    match h {
        Some(z) => signed_line(out, b"height", z),
        None => text_line(out, b"height", b"-"),
    }
}

fn point_lines(out: Stdout, p: Point) {
    answered(out);
    line(out, b"position", p.position);
    signed_line(out, b"latitude_increment", p.latitude_increment);
    signed_line(out, b"longitude_increment", p.longitude_increment);
    signed_line(out, b"heading", p.heading);
    line(out, b"near", p.near);
    let height = p.height;
    height_line(out, height);
}

// The question point.
pub fn point(out: Stdout, f: &[u8], track: usize, index: usize) -> usize
    ensures { result ≡ answer_number (point_answer (point_of f.now track index)) }
{
    match x1_questions::point(f, track, index) {
        Ok(p) => {
            point_lines(out, p);
            0
        }
        Err(fault) => refused(out, fault),
    }
}

// A coordinate.
pub fn coordinate_lines(out: Stdout, c: Coordinate) {
    answered(out);
    signed_line(out, b"latitude", c.latitude);
    signed_line(out, b"longitude", c.longitude);
}

// The question coordinate.
pub fn coordinate(out: Stdout, f: &[u8], number: usize, position: usize) -> usize
    ensures { result ≡ answer_number (coordinate_answer (coordinate_asked f.now number position)) }
{
    match x1_questions::coordinate(f, number, position) {
        Ok(c) => {
            coordinate_lines(out, c);
            0
        }
        Err(fault) => refused(out, fault),
    }
}
