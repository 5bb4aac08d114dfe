// Gathers a file from its pieces and prints it where it is whole and right: the words of the command are the identity that the transfer is opened
// with, and standard input is a sequence of pieces, each after its length in 4 bytes, low byte first. Every call of the loader that is refused is
// a line on standard error, and the last line there says how many pieces were taken and whether the file is printed. A piece that the input cuts
// off is handed on as it came, and an input that ends inside a length is a piece of no bytes: the loader refuses both.
#![tactic(auto)]

ghost use Rattle.std.specs.Prelude.{◌≡◌, ◌≤◌, length, IfOk};

use decimal::number_in;
use loading::refusals::{finishing_refused, opening_refused, piece_refused};
use loading::said::{wrong, wrong_word};
use octets::u32_at;
use std::env::FillError;
use std::io::{Read, Stderr, Stdout};
use std::rt::Env;
use std::{fmt, io};
use transfer::finishing::finish;
use transfer::opening::{nothing_opened, opening};
use transfer::pieces::piece;
use transfer::{Identity, State};

// The program's name, for what it says.
const NAME: [u8; 8] = *b"yardload";

// Where the words of the command stand, the program's own name being the first of them, and how many they are.
const STATION: usize = 1;

const KIND: usize = 2;

const VERSION: usize = 3;

const TOTAL: usize = 4;

const TRAILER: usize = 5;

const WORDS: usize = 6;

// The longest word that may be a number.
// Stays (6): the library's `env::args` gives no word where one of them is no UTF-8, and what is wrong is said with the word as it was given.
const NUMBER_ROOM: usize = 32;

// A byte more than the longest file is the room that the file is gathered in.
const FILE_ROOM: usize = 65536;

// How many bytes a piece may have here, and how many stand before it, which are its length.
const PIECE_MOST: usize = 131072;

const LENGTH: usize = 4;

// What stands next in the input: a piece, as far as the input has it, or one of so many bytes that cannot be held.
#[derive(Clone, Copy)]
enum Next<'a> {
    Piece(&'a [u8]),
    Long(usize),
}

// How far a run has come: the identity that was asked for, the loader's state, how many pieces there were, and how many of them were taken.
#[derive(Clone, Copy)]
struct Run {
    identity: Identity,
    state: State,
    pieces: usize,
    taken: usize,
}

// What became of the file.
#[derive(Clone, Copy)]
enum End {
    Printed,
    PrintedInPart,
    Nothing,
}

impl fmt::Display for End {
    fn fmt<W: fmt::Write>(&self, f: &mut fmt::Formatter<W>) -> fmt::Result {
        f.write_str(match self {
            End::Printed => "file printed",
            End::PrintedInPart => "file not printed whole",
            End::Nothing => "nothing printed",
        })
    }
}

// ---- pieces

// Reads until the room is full or the input ends. It answers how many bytes then stand at the front of the room.
// Stays (2): the library's `read_to_end` begins with short reads, and of input that comes in packets a short read loses what it leaves.
fn read_full(input: &mut impl Read, room: &mut [u8]) -> io::Result<usize>
    ensures { IfOk result (λ n. n ≤ length room.new) }
{
    let mut got = 0;
    while got < room.len() {
        let n = input.read(&mut room[got..])?;
        if n == 0 {
            break;
        }
        got += n;
    }
    Ok(got)
}

// What stands next in the input, a piece at the front of the room for it; none where it has ended. One that ends inside a length is a piece of no
// bytes.
fn read_next<'a>(
    input: &mut impl Read,
    piece_room: &'a mut [u8; PIECE_MOST],
) -> io::Result<Option<Next<'a>>> {
    let mut length = [0u8; LENGTH];
    match read_full(input, &mut length)? {
        0 => return Ok(None),
        LENGTH => {}
        _ => return Ok(Some(Next::Piece(&[]))),
    }
    let n = u32_at(&length, 0);
    if PIECE_MOST < n {
        return Ok(Some(Next::Long(n)));
    }
    let got = read_full(input, &mut piece_room[..n])?;
    Ok(Some(Next::Piece(&piece_room[..got])))
}

impl Run {
    // Hands the next piece to the loader. It is said where it is refused.
    fn hand(&mut self, err: Stderr, bytes: &[u8], room: &mut [u8]) {
        self.pieces = self.pieces.wrapping_add(1);
        let step = piece(self.state, bytes, room);
        match step.verdict {
            Ok(()) => {
                self.state = step.state;
                self.taken = self.taken.wrapping_add(1);
            }
            Err(fault) => piece_refused(err, self.pieces, fault),
        }
    }

    // Passes over the next piece, which has so many bytes, and says that it cannot be held. It answers how many of them the input has.
    fn pass_over(
        &mut self,
        input: &mut impl Read,
        err: Stderr,
        n: usize,
        piece_room: &mut [u8; PIECE_MOST],
    ) -> io::Result<usize> {
        self.pieces = self.pieces.wrapping_add(1);
        let number = self.pieces;
        let _ = println!(err; "piece {number} has {n} bytes, more than this program holds");
        for start in (0..n).step_by(PIECE_MOST) {
            let part = PIECE_MOST.min(n - start);
            let got = read_full(input, &mut piece_room[..part])?;
            if got < part {
                return Ok(start + got);
            }
        }
        Ok(n)
    }

    // Hands on every piece of the input, each by the room for pieces. A proved loop has to end, and nothing says that the input does: it stops after
    // as many pieces as no run has.
    fn gather(
        &mut self,
        rt: HostRuntime,
        piece_room: &mut [u8; PIECE_MOST],
        room: &mut [u8],
    ) -> io::Result<()> {
        let mut input = rt.stdin();
        // Stays (3): nothing says that a `while let` ends, since nothing says that the input does.
        for _ in 0..u64::MAX {
            match read_next(&mut input, piece_room)? {
                None => break,
                Some(Next::Piece(bytes)) => self.hand(rt.stderr(), bytes, room),
                Some(Next::Long(n)) => {
                    if self.pass_over(&mut input, rt.stderr(), n, piece_room)? < n {
                        break;
                    }
                }
            }
        }
        Ok(())
    }

    // Says how many pieces were taken, how many bytes have come, and what became of the file.
    fn say(self, err: Stderr, end: End) {
        let _ = println!(err;
            "end: {} of {} pieces taken, {} of {} bytes, {end}",
            self.taken, self.pieces, self.state.due, self.identity.total
        );
    }
}

// ---- the file

// Prints the file where finishing is accepted. It is said where it is refused.
fn printed(out: Stdout, err: Stderr, state: State, room: &[u8]) -> End {
    let verdict = finish(state, room);
    let identity = state.identity;
    let total = identity.total;
    match verdict {
        Ok(()) => {
            if out.write_all(&room[..total]).is_ok() {
                End::Printed
            } else {
                End::PrintedInPart
            }
        }
        Err(fault) => {
            finishing_refused(err, fault);
            End::Nothing
        }
    }
}

// Opens a transfer and loads its file. It is said where the opening is refused, and then nothing is read.
fn load(rt: HostRuntime, identity: Identity) -> io::Result<()> {
    // Stays (6): a vector needs more memory than the room, and so could run out of it where the room does not.
    let mut room = [0u8; FILE_ROOM];
    let step = opening(nothing_opened(), identity, room.len());
    let mut run = Run {
        identity,
        state: step.state,
        pieces: 0,
        taken: 0,
    };
    let end = match step.verdict {
        Ok(()) => {
            let mut piece_room = [0u8; PIECE_MOST];
            run.gather(rt, &mut piece_room, &mut room)?;
            printed(rt.stdout(), rt.stderr(), run.state, &room)
        }
        Err(fault) => {
            opening_refused(rt.stderr(), fault);
            End::Nothing
        }
    };
    run.say(rt.stderr(), end);
    Ok(())
}

// ---- the command

// How many words the command has, the program's own name being the first of them.
// Stays (2): in each program that counts them; a public function of a library is determined by its input (crate promises), and these are none.
fn word_count(rt: HostRuntime) -> usize {
    (0..usize::MAX)
        .take_while(|i| !matches!(rt.arg(*i, &mut []), Err(FillError::NotPresent)))
        .count()
}

// The number that a word of the command is. It is said where it is none.
fn number(rt: HostRuntime, i: usize) -> Option<usize> {
    let mut word = [0u8; NUMBER_ROOM];
    if let Ok(n) = rt.arg(i, &mut word) {
        if let Ok(found) = u32::try_from(number_in(&word[..n], u32::MAX)) {
            return Some(found as usize);
        }
    }
    wrong_word(rt, &NAME, b"no number below 4294967296:", i);
    None
}

fn main(rt: HostRuntime) -> io::Result<()> {
    if word_count(rt) != WORDS {
        wrong(
            rt.stderr(),
            &NAME,
            b"too few or too many words; it is asked by yardload STATION TYPE VERSION TOTAL TRAILER <PIECES",
        );
        return Ok(());
    }
    let numbers = [STATION, KIND, VERSION, TOTAL, TRAILER].map(|i| number(rt, i));
    if let [
        Some(station),
        Some(kind),
        Some(version),
        Some(total),
        Some(trailer),
    ] = numbers
    {
        let identity = Identity {
            station,
            kind,
            version,
            total,
            trailer,
        };
        load(rt, identity)?;
    }
    Ok(())
}
