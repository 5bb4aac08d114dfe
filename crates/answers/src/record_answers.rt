// The answers about an X.2 file.
ghost use Rattle.std.specs.Prelude.{◌≡◌};
ghost use Rattle.verdict.specs.Reasons.{number_in};
ghost use Rattle.verdict.specs.Answers.{answer_number};
ghost use Rattle.x2_verdict.specs.Facts.{verdict_of};
ghost use Rattle.x2_verdict.specs.Questions.{record_of};
ghost use Rattle.x2_verdict.specs.Answers.{record_answer};

use crate::geography_answers::{answered, judged, refused};
use names::Name;
use std::io::Stdout;
use text::{line, lines, message_line, name_line, text_line};
use x2_records::{
    Balise, Boundary, Facing, GroupDirection, Joint, Nature, Record, Siding, Signal, Turnout,
};

// The question x2.
pub fn x2(out: Stdout, f: &[u8]) -> usize
    ensures { result ≡ number_in (verdict_of f.now) }
{
    judged(out, x2_verdict::verdict_of(f))
}

// What every record's answer begins with.
fn kind_line(out: Stdout, kind: &[u8]) {
    answered(out);
    text_line(out, b"kind", kind);
}

// The two links of a record that lies in a track.
fn link_lines(out: Stdout, previous: usize, next: usize) {
    line(out, b"previous", previous);
    line(out, b"next", next);
}

// Where a record lies.
fn place_lines(out: Stdout, position: usize, track: usize) {
    line(out, b"position", position);
    line(out, b"track", track);
}

fn direction_line(out: Stdout, direction: &[u8]) {
    text_line(out, b"direction", direction);
}

fn boundary_lines(out: Stdout, kind: &[u8], b: Boundary) {
    kind_line(out, kind);
    let values = [
        b.entry,
        b.link,
        b.neighbour_station,
        b.neighbour_type,
        b.neighbour_track,
        b.position,
        b.track,
    ];
    lines(
        out,
        b"type link neighbour_station neighbour_type neighbour_track position track",
        &values,
    );
}

fn start_boundary_lines(out: Stdout, b: Boundary) {
    boundary_lines(out, b"start_boundary", b);
}

fn end_boundary_lines(out: Stdout, b: Boundary) {
    boundary_lines(out, b"end_boundary", b);
}

fn turnout_lines(out: Stdout, t: Turnout) {
    kind_line(out, b"turnout");
    let direction = t.direction;
    let values = [
        t.number,
        direction.number(),
        t.tip_position,
        t.normal_position,
        t.reverse_position,
        t.front,
        t.normal,
        t.reverse,
        t.front_track,
        t.normal_track,
        t.reverse_track,
    ];
    lines(
        out,
        b"number direction tip_position normal_position reverse_position \
        front normal reverse front_track normal_track reverse_track",
        &values,
    );
}

fn nature_line(out: Stdout, nature: Nature) {
    match nature {
        Nature::Virtual => text_line(out, b"nature", b"virtual"),
        Nature::Physical => text_line(out, b"nature", b"physical"),
    }
}

fn group_direction_line(out: Stdout, d: GroupDirection) {
    match d {
        GroupDirection::Opposite => direction_line(out, b"opposite"),
        GroupDirection::Same => direction_line(out, b"same"),
    }
}

// How many bytes the message has of a balise of a size.
fn message_bytes(size: usize) -> usize {
    if size < Balise::SIZE {
        0
    } else {
        size - Balise::SIZE
    }
}

// What a balise is: its number and size, and its attribute byte.
fn balise_attributes(out: Stdout, b: Balise) {
    let nature = b.nature;
    let direction = b.direction;
    line(out, b"number", b.number);
    line(out, b"size", b.size);
    nature_line(out, nature);
    group_direction_line(out, direction);
}

fn balise_lines(out: Stdout, f: &[u8], b: Balise) {
    kind_line(out, b"balise");
    link_lines(out, b.previous, b.next);
    balise_attributes(out, b);
    let values = [b.position, b.track, b.rank, b.count];
    lines(out, b"position track place count", &values);
    message_line(out, b"message", f, b.message, message_bytes(b.size));
}

fn facing_line(out: Stdout, facing: Facing) {
    match facing {
        Facing::Neither => direction_line(out, b"none"),
        Facing::Down => direction_line(out, b"down"),
        Facing::Up => direction_line(out, b"up"),
    }
}

// An object's own name, and how many bytes it has; a name of no bytes is a dash, and so is one that is a dash.
fn named_lines(out: Stdout, f: &[u8], name: Name) {
    name_line(out, b"name", f, name);
    line(out, b"name_bytes", name.bytes);
}

fn signal_lines(out: Stdout, f: &[u8], s: Signal) {
    kind_line(out, b"signal");
    link_lines(out, s.previous, s.next);
    let name = s.name;
    named_lines(out, f, name);
    place_lines(out, s.position, s.track);
    let facing = s.direction;
    facing_line(out, facing);
    let duty = s.duty;
    line(out, b"type", duty.number());
}

fn joint_lines(out: Stdout, f: &[u8], j: Joint) {
    kind_line(out, b"joint");
    link_lines(out, j.previous, j.next);
    let name = j.name;
    named_lines(out, f, name);
    place_lines(out, j.position, j.track);
}

// An exit balise; a dash for none.
fn exit_line(out: Stdout, name: &[u8], n: usize) {
    if n == Balise::NONE {
        text_line(out, name, b"-");
    } else {
        line(out, name, n);
    }
}

fn siding_lines(out: Stdout, f: &[u8], s: Siding) {
    kind_line(out, b"siding");
    let name = s.name;
    named_lines(out, f, name);
    line(out, b"track", s.track);
    exit_line(out, b"up_balise", s.up_balise);
    let up = s.up_signal;
    name_line(out, b"up_signal", f, up);
    line(out, b"up_signal_bytes", up.bytes);
    exit_line(out, b"down_balise", s.down_balise);
    let down = s.down_signal;
    name_line(out, b"down_signal", f, down);
    line(out, b"down_signal_bytes", down.bytes);
}

fn record_lines(out: Stdout, f: &[u8], r: Record) {
    match r {
        Record::StartBoundary(b) => start_boundary_lines(out, b),
        Record::EndBoundary(b) => end_boundary_lines(out, b),
        Record::Turnout(t) => turnout_lines(out, t),
        Record::Balise(b) => balise_lines(out, f, b),
        Record::Signal(s) => signal_lines(out, f, s),
        Record::Joint(j) => joint_lines(out, f, j),
        Record::Siding(s) => siding_lines(out, f, s),
    }
}

// The question record.
pub fn record(out: Stdout, f: &[u8], offset: usize) -> usize
    ensures { result ≡ answer_number (record_answer (record_of f.now offset)) }
{
    match x2_verdict::record_at(f, offset) {
        Ok(r) => {
            record_lines(out, f, r);
            0
        }
        Err(fault) => refused(out, fault),
    }
}
