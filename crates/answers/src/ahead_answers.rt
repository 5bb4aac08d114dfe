// The answer about what lies ahead (02, ticket 9): why the list stops, and the offsets of its objects on one line.
ghost use Rattle.std.specs.Prelude.{◌≡◌, min, length};
ghost use Rattle.verdict.specs.Answers.{answer_number};
ghost use Rattle.ahead.specs.Asked.{ahead_asked, ahead_answer};

use crate::pair_answers::pair_head;
use ahead::{OBJECTS_MOST, ROOM_LEAST, Sight, Stop};
use octets::{least, u16_at};
use route_walks::WORD_SIZE;
use std::io::Stdout;
use text::{text_line, write, write_number};

// Why the list stops.
fn stop_line(out: Stdout, stop: Stop) {
    match stop {
        Stop::Boundary => text_line(out, b"stop", b"boundary"),
        Stop::NoLink => text_line(out, b"stop", b"no-link"),
        Stop::UnknownLie => text_line(out, b"stop", b"unknown-lie"),
        Stop::Repeated => text_line(out, b"stop", b"repeated"),
        Stop::AgainstLie => text_line(out, b"stop", b"against-lie"),
        Stop::Full => text_line(out, b"stop", b"full"),
    }
}

// The offsets of n objects, of which there are no more than a list may have.
fn objects_line(out: Stdout, lent: &[u8], n: usize) {
    write(out, b"objects");
    for k in 0..least(n, OBJECTS_MOST) {
        write(out, b" ");
        write_number(out, u16_at(lent, WORD_SIZE * k));
    }
    write(out, b"\n");
}

// The values of an answer.
fn sight_lines(out: Stdout, s: Sight, lent: &[u8]) {
    let stop = s.stop;
    stop_line(out, stop);
    objects_line(out, lent, s.objects);
}

// The question ahead, with the bytes that are lent.
fn told(
    out: Stdout,
    first: &[u8],
    second: &[u8],
    offset: usize,
    link: usize,
    lies: &[u8],
    lent: &mut [u8],
) -> usize
    ensures { result ≡ answer_number (ahead_answer (ahead_asked first.now second.now offset link lies.now (length lent.old))) }
{
    match ahead::ahead(first, second, offset, link, lies, lent) {
        Ok(s) => {
            pair_head(out, 0, 0, 0);
            sight_lines(out, s, lent);
            0
        }
        Err(fault) => {
            let n = fault.number();
            pair_head(out, n, fault.place(), fault.file());
            n
        }
    }
}

// The question ahead, with room for as many bytes. More than the objects can take are not needed.
pub fn ahead(
    out: Stdout,
    first: &[u8],
    second: &[u8],
    offset: usize,
    link: usize,
    lies: &[u8],
    room: usize,
) -> usize
    ensures { result ≡ answer_number (ahead_answer (ahead_asked first.now second.now offset link lies.now (min room 128))) }
{
    let mut bytes = [0u8; ROOM_LEAST];
    let lent = least(room, ROOM_LEAST);
    told(out, first, second, offset, link, lies, &mut bytes[..lent])
}
