// Prints a file in pieces, or its identity. The pieces, of at most so many bytes, stand one after the other, each after its length in 4 bytes, low
// byte first. The identity, where no number of bytes is given, is one line of five decimals, which are the words that yardload takes. The file is
// not judged by the reader: any file is split that a loader could open. What is wrong with the command, or the number by which a loader would refuse
// to open the file, is one line on standard error, and then nothing stands on standard output.
#![tactic(auto)]

ghost use Rattle.std.specs.Prelude.{◌≤◌, length, IfOk};

use decimal::number_in;
use loading::refusals::opening_refused;
use loading::said::{say, wrong, wrong_word};
use std::env::FillError;
use std::fs::File;
use std::io::{Read, Stdout};
use std::rt::Env;
use std::{fs, io, str};
use text::write;
use transfer::heads::head_of;
use transfer::opening::{nothing_opened, opening};
use transfer::{Identity, identity_of};
use verdict::Fault;

// The program's name, for what it says.
const NAME: [u8; 9] = *b"yardsplit";

// Where the words of the command stand, the program's own name being the first of them.
const FILE: usize = 1;

const BYTES: usize = 2;

// How many words a command has that asks for the identity, and one that asks for the pieces.
const IDENTITY_WORDS: usize = 2;

const PIECES_WORDS: usize = 3;

// The word that asks how the program is asked.
const HELP: &[u8] = b"help";

// The longest word that may name a file, and the longest that may be a number.
// Stays (6): the library's `env::args` gives no word where one of them is no UTF-8, and what is wrong is said with the word as it was given.
const WORD_ROOM: usize = 4096;

const NUMBER_ROOM: usize = 32;

// How far a file is read: a byte more than the longest, since a file that has that is too long, whatever follows; and a byte further, so that it is
// told where reading fails there.
const FILE_MOST: usize = 65537;

// How many bytes of a number are its length before a piece.
const LENGTH: usize = 4;

// What is wrong with the command or its file.
#[derive(Clone, Copy)]
enum Wrong {
    Few,
    Many,
    Bytes,
    NotOpened,
    NotRead,
    Refused(Fault),
}

// ---- pieces

// A piece after its length, low byte first: the numbers, and then the bytes, which start there in the file.
fn write_piece(out: Stdout, identity: Identity, start: usize, bytes: &[u8]) {
    let numbers = head_of(identity, start, bytes.len());
    let laid = numbers.bytes;
    let n = numbers.length;
    let length = (n + bytes.len()).to_le_bytes();
    write(out, &length[..LENGTH]);
    write(out, &laid[..n]);
    write(out, bytes);
}

// The pieces of a file, of so many bytes each; the last may have fewer.
fn write_pieces(out: Stdout, identity: Identity, f: &[u8], most: usize)
    requires { 1 ≤ most }
{
    for (start, bytes) in (0..f.len()).step_by(most).zip(f.chunks(most)) {
        write_piece(out, identity, start, bytes);
    }
}

// The identity of a file, on one line.
fn write_identity(out: Stdout, i: Identity) {
    let _ = println!(out;
        "{} {} {} {} {}",
        i.station, i.kind, i.version, i.total, i.trailer
    );
}

// ---- the file

// Opens the file of the command.
// Stays (2): in each program that opens one; a public function of a library is determined by its input (crate promises), and a file is none.
fn opened(rt: HostRuntime) -> Option<File> {
    let mut word = [0u8; WORD_ROOM];
    let n = rt.arg(FILE, &mut word).ok()?;
    fs::open(&rt, str::from_utf8(&word[..n]).ok()?).ok()
}

// Reads until the room is full or the input ends. It answers how many bytes then stand at the front of the room.
// Stays (2): the library's `read_to_end` begins with short reads, and of input that comes in packets a short read loses what it leaves.
fn read_full(input: &mut impl Read, room: &mut [u8]) -> io::Result<usize>
    ensures { IfOk result (λ n. n ≤ length room.new) }
{
    let mut got = 0;
    while got < room.len() {
        let n = input.read(&mut room[got..])?;
        if n == 0 {
            break;
        }
        got += n;
    }
    Ok(got)
}

// Reads the file of the command, as far as there is room. It answers what it read.
// Stays (6): a vector needs more memory than the room, and so could run out of it where the room does not.
fn read<'a>(rt: HostRuntime, room: &'a mut [u8]) -> Result<&'a [u8], Wrong> {
    let mut file = opened(rt).ok_or(Wrong::NotOpened)?;
    let n = read_full(&mut file, room).map_err(|_| Wrong::NotRead)?;
    Ok(&room[..n])
}

// The identity of a file that a loader with room for it could open.
fn identity_in(f: &[u8]) -> Result<Identity, Wrong> {
    let identity = identity_of(f);
    let step = opening(nothing_opened(), identity, identity.total);
    match step.verdict {
        Ok(()) => Ok(identity),
        Err(fault) => Err(Wrong::Refused(fault)),
    }
}

// ---- the command

// How many words the command has, the program's own name being the first of them.
// Stays (2): in each program that counts them; a public function of a library is determined by its input (crate promises), and these are none.
fn word_count(rt: HostRuntime) -> usize {
    (0..usize::MAX)
        .take_while(|i| !matches!(rt.arg(*i, &mut []), Err(FillError::NotPresent)))
        .count()
}

// How many bytes a piece has at most, by the command.
fn piece_bytes(rt: HostRuntime) -> Result<usize, Wrong>
    ensures { IfOk result (λ n. 1 ≤ n) }
{
    let mut word = [0u8; NUMBER_ROOM];
    let Ok(n) = rt.arg(BYTES, &mut word) else {
        return Err(Wrong::Bytes);
    };
    match u32::try_from(number_in(&word[..n], u32::MAX)) {
        Ok(0) | Err(_) => Err(Wrong::Bytes),
        Ok(most) => Ok(most as usize),
    }
}

// Whether the command asks how the program is asked.
fn is_help(rt: HostRuntime) -> bool {
    let mut word = [0u8; NUMBER_ROOM];
    let Ok(n) = rt.arg(FILE, &mut word) else {
        return false;
    };
    &word[..n] == HELP
}

// Answers the command: the identity of its file, or its pieces.
fn command(rt: HostRuntime) -> Result<(), Wrong> {
    let words = word_count(rt);
    if words < IDENTITY_WORDS || words == IDENTITY_WORDS && is_help(rt) {
        return Err(Wrong::Few);
    }
    if PIECES_WORDS < words {
        return Err(Wrong::Many);
    }
    let mut room = [0u8; FILE_MOST];
    if words == IDENTITY_WORDS {
        write_identity(rt.stdout(), identity_in(read(rt, &mut room)?)?);
        return Ok(());
    }
    let most = piece_bytes(rt)?;
    let f = read(rt, &mut room)?;
    write_pieces(rt.stdout(), identity_in(f)?, f, most);
    Ok(())
}

// Says what is wrong.
fn say_wrong(rt: HostRuntime, what: Wrong) {
    let err = rt.stderr();
    match what {
        Wrong::Few => wrong(err, &NAME, b"it is asked by yardsplit FILE [BYTES]"),
        Wrong::Many => wrong(
            err,
            &NAME,
            b"too many words; it is asked by yardsplit FILE [BYTES]",
        ),
        Wrong::Bytes => wrong_word(rt, &NAME, b"no number from 1 to 4294967295:", BYTES),
        Wrong::NotOpened => wrong_word(rt, &NAME, b"cannot open the file", FILE),
        Wrong::NotRead => wrong_word(rt, &NAME, b"cannot read the file", FILE),
        Wrong::Refused(fault) => {
            say(err, &NAME);
            say(err, b": ");
            opening_refused(err, fault);
        }
    }
}

fn main(rt: HostRuntime) {
    if let Err(what) = command(rt) {
        say_wrong(rt, what);
    }
}
