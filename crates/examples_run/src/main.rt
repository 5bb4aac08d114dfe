// The examples of 01 that are not marked P, run: yard Y and the X.1 file with one track and two points, each with some bytes changed and
// the checksum repaired, and the verdict of each; the routes of Y from 44 with some budgets and rooms; and what
// yardlist prints of Y. The expected output is the paper's.
#![tactic(auto)]

ghost use Rattle.std.specs.Prelude.{◌<◌, ◌≤◌, length};

use route_walks::WORD_SIZE;
use std::io;
use std::io::Stdout;
use verdict::{Fault, answer_number, answer_place};

// Yard Y with a checksum of zeros, in rows: type, versions and station; station name; start boundaries (how many, track, offset); end
// boundaries (the same); group offsets; the boundaries at 44, 56 and 68 (type, link, neighbour station, type and track, position, track);
// the turnout at 80 (type, number, direction; positions; links front, normal, reverse; tracks); checksum.
const YARD: [u8; 108] = *b"\
\x02\x01\x00\x01\x00\x01\x00\
\xB1\xB1\x00\x00\x00\x00\x00\x00\x00\x00\x00\x00\x00\x00\x00\x00\
\x01\x01\x2C\x00\
\x02\x01\x38\x00\x01\x44\x00\
\x50\x00\x00\x00\x00\x00\x00\x00\x00\x00\
\x01\x50\x00\x00\x00\x55\x00\x00\x00\x00\x00\x01\
\xFE\x50\x00\x00\x00\x55\x00\x00\x00\x00\x00\x01\
\xFE\x50\x00\x00\x00\x55\x00\x00\x00\x00\x00\x01\
\x06\x01\x01\
\x00\x00\x00\x00\x00\x00\x00\x00\x00\x00\x00\x00\
\x2C\x00\x38\x00\x44\x00\
\x01\x01\x01\
\x00\x00\x00\x00";

// Where the reverse link of the turnout stands.
const REVERSE: usize = 99;

// X.1 with one track and two points, with a checksum of zeros, in rows: type, versions, station, track count; the track (number and property;
// start position, latitude and longitude; end; first and last offset); the points at 38 and 51; checksum.
const TRACK: [u8; 68] = *b"\
\x01\x01\x00\x01\x00\x01\x00\x01\
\x01\x01\
\x00\x00\x00\x00\x00\x00\x00\x00\x00\x00\x00\x00\
\x64\x00\x00\x00\x00\x00\x00\x00\x00\x00\x00\x00\
\x26\x00\x33\x00\
\x00\x00\x00\x00\x00\x00\x00\x00\x00\x00\x00\x00\x00\
\x64\x00\x00\x00\x00\x00\x00\x00\x00\x00\x00\x00\x00\
\x00\x00\x00\x00";

// Where the last offset of the track stands.
const LAST: usize = 36;

// How many bytes a checksum has. They stand last.
const CHECKSUM: usize = 4;

fn line(out: Stdout, what: &str, number: usize, place: usize) -> io::Result<()> {
    println!(out; "{what}: {number} at {place}")
}

// The number and the place of an answer, by its fault.
fn answer_line(out: Stdout, what: &str, fault: Option<Fault>) -> io::Result<()> {
    line(out, what, answer_number(fault), answer_place(fault))
}

// Repairs the checksum of a file.
fn repair(f: &mut [u8])
    requires { 4 ≤ length f.old }
{
    let end = f.len() - CHECKSUM;
    let sum = checksum::of_first(f, end);
    f[end..].copy_from_slice(&sum.to_le_bytes()[..CHECKSUM]);
}

// A file with the byte at a place set, and its checksum repaired.
fn changed<const N: usize>(file: [u8; N], at: usize, x: u8) -> [u8; N]
    requires place { at < N }
    requires size { 4 ≤ N }
{
    let mut f = file;
    f[at] = x;
    repair(&mut f);
    f
}

// Yard Y with a reverse link.
fn yard(reverse: u8) -> [u8; 108] {
    changed(YARD, REVERSE, reverse)
}

// The verdicts of Y and of Y with another reverse link.
fn yard_lines(out: Stdout) -> io::Result<()> {
    for (what, reverse) in [
        ("Y", 68),
        ("Y, reverse link 57", 57),
        ("Y, reverse link 80", 80),
        ("Y, reverse link 0", 0),
        ("Y, reverse link 56", 56),
    ] {
        answer_line(out, what, x2_verdict::verdict_of(&yard(reverse)).err())?;
    }
    Ok(())
}

// The verdicts of the X.1 file and of the same with another last offset.
fn track_lines(out: Stdout) -> io::Result<()> {
    for (what, last) in [
        ("X.1, one track and two points", 51),
        ("X.1, last offset 50", 50),
        ("X.1, last offset 38", 38),
    ] {
        let f = changed(TRACK, LAST, last);
        answer_line(out, what, x1_verdict::verdicts::verdict_of(&f).err())?;
    }
    Ok(())
}

// The routes of Y from 44 within a budget, in the bytes lent.
fn routes_line(out: Stdout, what: &str, budget: usize, lent: &mut [u8]) -> io::Result<()> {
    let answer = route_question::routes(&yard(68), 44, 8, budget, lent);
    answer_line(out, what, answer.err())
}

// Y from 44 within two budgets; and with two bytes for each word that its two routes take, and with a byte less, which is room for a word less.
fn route_lines(out: Stdout) -> io::Result<()> {
    let mut lent = [0u8; WORD_SIZE * 8];
    routes_line(out, "Y from 44, budget 3", 3, &mut lent)?;
    routes_line(out, "Y from 44, budget 4", 4, &mut lent)?;
    routes_line(out, "Y from 44, room 7", 4, &mut lent[1..])?;
    routes_line(out, "Y from 44, room 8", 4, &mut lent)
}

fn main(rt: HostRuntime) -> io::Result<()> {
    let out = rt.stdout();
    yard_lines(out)?;
    track_lines(out)?;
    route_lines(out)?;
    listings::list(out, &yard(68));
    Ok(())
}
