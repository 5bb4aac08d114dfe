// Many questions in one run. Standard input is a sequence of cases: the question in 1 byte (x1, x2, pair, track, point, coordinate,
// record, routes, header1, header2, routes2, degrees, point-degrees and load are 1 to 14; ahead is 15; x1-version-1 is 16), four numbers of 4
// bytes each, two lengths of 4 bytes each, and the bytes of the first and of the second file; all numbers are little-endian. The numbers of ahead
// are the offset, the link, how many lies there are, and the room in bytes; so many bytes at the end of its second byte string are the lies, those
// before them the X.2, so that the string may be longer than a file. The first number of load is the size of the room, 65,536 bytes at most, which
// is filled with 0xA5, and its first byte string a sequence of calls, which load.rt reads; the others are passed over. Standard output is, for
// each case, what yardask prints, and an empty line; of load it is a line `NUMBER PLACE` for each call, then the next byte due and the checksum of
// the room. Input that ends inside a case, an unknown question, a case of ahead with more lies than its second byte string has bytes, a case of
// load with a larger room or with a call that is none, or a list of routes that does not fit the 65,535 words that are here where the case lends
// more, is a line on standard error and ends the run.
#![tactic(auto)]

use ahead::LIES;
use listings::{MOST_ROOM, NO_ROOM};
use octets::{byte_at, u32_at};
use route_question::Engine;
use std::alloc::AllocError;
use std::io::{ErrorKind, Read};
use std::{fmt, io};

mod load;

// What stands before the files of a case: the question, four numbers and two lengths.
const HEAD: usize = 25;

// Where the four numbers stand, and the bytes of each.
const NUMBERS: usize = 1;

const NUMBER: usize = 4;

// Where the two lengths stand.
const FIRST_LENGTH: usize = 17;

const SECOND_LENGTH: usize = 21;

// A byte more than the longest file: of a longer one no more is kept, since it is too long, whatever follows.
const FILE_MOST: usize = 65536;

// The same of the lies.
const LIES_MOST: usize = LIES + 1;

// The question load, which load.rt answers.
const LOAD: u8 = 14;

// The other questions.
#[derive(Clone, Copy)]
enum Question {
    X1,
    X2,
    Pair,
    Track,
    Point,
    Coordinate,
    Record,
    Routes(Engine),
    Header1,
    Header2,
    Degrees,
    PointDegrees,
    Ahead,
    X1Version1,
}

// Why the run ends before its input does.
#[derive(Debug, Drop)]
enum Stop {
    InsideCase,
    UnknownQuestion,
    TooManyLies,
    LongList,
    LargeRoom,
    InsideCall,
    UnknownCall,
    LongCall,
    // reading, or writing what the case answers, failed, or there was no memory
    Failed(io::Error),
}

impl fmt::Display for Stop {
    fn fmt<W: fmt::Write>(&self, f: &mut fmt::Formatter<W>) -> fmt::Result {
        match self {
            Stop::InsideCase => f.write_str("the input ends inside a case"),
            Stop::UnknownQuestion => f.write_str("unknown question"),
            Stop::TooManyLies => f.write_str("a case has more lies than bytes"),
            Stop::LongList => write!(
                f,
                "a list takes more words than the {MOST_ROOM} that this program has room for"
            ),
            Stop::LargeRoom => f.write_str("a case has a room of more than 65536 bytes"),
            Stop::InsideCall => f.write_str("the calls of a case end inside a call"),
            Stop::UnknownCall => {
                f.write_str("an unknown call, or an opening of other than 20 bytes")
            }
            Stop::LongCall => f.write_str("a call has more than 131072 bytes"),
            Stop::Failed(e) => write!(f, "{e}"),
        }
    }
}

impl From<io::Error> for Stop {
    fn from(e: io::Error) -> Stop {
        match e.kind() {
            ErrorKind::UnexpectedEof => Stop::InsideCase,
            _ => Stop::Failed(e),
        }
    }
}

impl From<AllocError> for Stop {
    fn from(e: AllocError) -> Stop {
        Stop::Failed(io::Error::from(e))
    }
}

// What stands before the files of a case.
#[derive(Drop)]
struct Head {
    bytes: Vec<u8>,
}

impl Head {
    // Reads the next one; none where the input has ended.
    fn read(rt: HostRuntime) -> Result<Option<Head>, Stop> {
        let mut bytes = Vec::new(rt.alloc());
        match rt.stdin().take(HEAD as u64).read_to_end(&mut bytes)? {
            0 => Ok(None),
            HEAD => Ok(Some(Head { bytes })),
            _ => Err(Stop::InsideCase),
        }
    }

    // The code of the question.
    fn code(&self) -> u8 {
        byte_at(&self.bytes, 0) as u8
    }

    fn numbers(&self) -> [usize; 4] {
        [
            u32_at(&self.bytes, NUMBERS),
            u32_at(&self.bytes, NUMBERS + NUMBER),
            u32_at(&self.bytes, NUMBERS + 2 * NUMBER),
            u32_at(&self.bytes, NUMBERS + 3 * NUMBER),
        ]
    }

    fn first_length(&self) -> usize {
        u32_at(&self.bytes, FIRST_LENGTH)
    }

    fn second_length(&self) -> usize {
        u32_at(&self.bytes, SECOND_LENGTH)
    }
}

impl TryFrom<u8> for Question {
    type Error = Stop;

    fn try_from(code: u8) -> Result<Self, Stop> {
        match code {
            1 => Ok(Question::X1),
            2 => Ok(Question::X2),
            3 => Ok(Question::Pair),
            4 => Ok(Question::Track),
            5 => Ok(Question::Point),
            6 => Ok(Question::Coordinate),
            7 => Ok(Question::Record),
            8 => Ok(Question::Routes(Engine::First)),
            9 => Ok(Question::Header1),
            10 => Ok(Question::Header2),
            11 => Ok(Question::Routes(Engine::Second)),
            12 => Ok(Question::Degrees),
            13 => Ok(Question::PointDegrees),
            15 => Ok(Question::Ahead),
            16 => Ok(Question::X1Version1),
            _ => Err(Stop::UnknownQuestion),
        }
    }
}

// Passes over n bytes of the input.
fn pass_over(rt: HostRuntime, n: usize) -> Result<(), Stop> {
    let passed = io::copy(&mut rt.stdin().take(n as u64), &mut io::sink())?;
    if passed < n as u64 {
        return Err(Stop::InsideCase);
    }
    Ok(())
}

// Reads a file of n bytes. The first of them are kept, as many as are asked for, and the others passed over.
fn read_file(rt: HostRuntime, n: usize, most: usize) -> Result<Vec<u8>, Stop> {
    let mut kept = vec![in rt.alloc(); 0u8; n.min(most)]?;
    rt.stdin().read_exact(&mut kept)?;
    pass_over(rt, n - n.min(most))?;
    Ok(kept)
}

// Answers a question about the files and the lies of a case.
fn answer_question(
    rt: HostRuntime,
    question: Question,
    numbers: [usize; 4],
    first: &[u8],
    second: &[u8],
    lies: &[u8],
) -> Result<(), Stop> {
    let out = rt.stdout();
    let [a, b, c, room] = numbers;
    match question {
        Question::X1 => answers::x1(out, first),
        Question::X2 => answers::x2(out, first),
        Question::Pair => answers::pair(out, first, second),
        Question::Track => answers::track(out, first, a),
        Question::Point => answers::point(out, first, a, b),
        Question::Coordinate => answers::coordinate(out, first, a, b),
        Question::Record => answers::record(out, first, a),
        Question::Routes(engine) => listed(
            listings::routes(out, engine, first, a, b, c, room),
            room,
        )?,
        Question::Header1 => answers::header1(out, first),
        Question::Header2 => answers::header2(out, first),
        Question::Degrees => answers::degrees(out, first, a, b),
        Question::PointDegrees => answers::point_degrees(out, first, a, b),
        Question::Ahead => answers::ahead(out, first, second, a, b, lies, room),
        Question::X1Version1 => answers::x1_version_1(out, first),
    };
    Ok(())
}

// The number of an answer to routes, unless it says that there is no room where the case lends more words than are here.
fn listed(number: usize, room: usize) -> Result<usize, Stop> {
    if number == NO_ROOM && MOST_ROOM < room {
        return Err(Stop::LongList);
    }
    Ok(number)
}

// Answers a case about files. The lies stand at the end of its second byte string.
fn answer_files(rt: HostRuntime, head: &Head) -> Result<(), Stop> {
    let question = Question::try_from(head.code());
    let numbers = head.numbers();
    let lies = match question {
        Ok(Question::Ahead) => numbers[2],
        _ => 0,
    };
    let Some(bytes) = head.second_length().checked_sub(lies) else {
        return Err(Stop::TooManyLies);
    };
    let first = read_file(rt, head.first_length(), FILE_MOST)?;
    let second = read_file(rt, bytes, FILE_MOST)?;
    let lies = read_file(rt, lies, LIES_MOST)?;
    answer_question(rt, question?, numbers, &first, &second, &lies)?;
    rt.stdout().write_all(b"\n")?;
    Ok(())
}

// Answers every case of the input. A proved loop has to end, and nothing says that the input does: it stops after as many cases as no run has.
fn answer_all(rt: HostRuntime) -> Result<(), Stop> {
    // Stays (3): nothing says that a `while let` ends, since nothing says that the input does.
    for _ in 0..u64::MAX {
        let Some(head) = Head::read(rt)? else {
            break;
        };
        if head.code() == LOAD {
            load::answer(rt, &head)?;
        } else {
            answer_files(rt, &head)?;
        }
    }
    Ok(())
}

fn main(rt: HostRuntime) -> io::Result<()> {
    match answer_all(rt) {
        Ok(()) => Ok(()),
        Err(Stop::Failed(e)) => Err(e),
        Err(stop) => eprintln!(rt; "yardbatch: {stop}"),
    }
}
