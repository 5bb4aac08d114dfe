// A question about station map files that are named on the command line, answered on standard output. What is wrong with the command is
// said in one line on standard error, and then nothing stands on standard output. The answers are those of the library; here words become
// questions, numbers and files.
#![tactic(auto)]

ghost use Rattle.std.specs.Prelude.{◌≤◌, length, IfOk};

use ahead::{LIES, ROOM_LEAST, UNKNOWN};
use decimal::number_in;
use listings::{MOST_ROOM, NO_ROOM};
use route_question::Engine;
use std::env::FillError;
use std::fs::File;
use std::io::{Read, Stdout};
use std::rt::Env;
use std::{fmt, fs, io, str};

// A question about one file.
#[derive(Clone, Copy)]
enum About {
    X1,
    X1Version1,
    X2,
    Header1,
    Header2,
    Track,
    Point,
    Coordinate,
    Degrees,
    PointDegrees,
    Record,
}

// A question.
#[derive(Clone, Copy)]
enum Question {
    File(About),
    Pair,
    Routes(Engine),
    Ahead,
}

// A question with its line of help: the words of its command, and what it answers.
#[derive(Clone, Copy)]
struct Row {
    question: Question,
    form: &'static str,
    answers: &'static str,
}

// The questions. Help is these lines.
const QUESTIONS: [Row; 15] = [
    Row {
        question: Question::File(About::X1),
        form: "yardask x1 FILE",
        answers: "the verdict of an X.1 file: its number and the place of the fault",
    },
    Row {
        question: Question::File(About::X1Version1),
        form: "yardask x1-version-1 FILE",
        answers: "the verdict of an X.1 by a reader that knows structure version 1 alone",
    },
    Row {
        question: Question::File(About::X2),
        form: "yardask x2 FILE",
        answers: "the verdict of an X.2 file",
    },
    Row {
        question: Question::Pair,
        form: "yardask pair FILE1 FILE2",
        answers: "the verdict of a station's two files",
    },
    Row {
        question: Question::File(About::Header1),
        form: "yardask header1 FILE",
        answers: "the versions and the station of an X.1",
    },
    Row {
        question: Question::File(About::Header2),
        form: "yardask header2 FILE",
        answers: "the versions, the station and the name of an X.2",
    },
    Row {
        question: Question::File(About::Track),
        form: "yardask track FILE INDEX",
        answers: "a track of an X.1, by its index from 0",
    },
    Row {
        question: Question::File(About::Point),
        form: "yardask point FILE TRACK POINT",
        answers: "a point of a track of an X.1, both by their indexes from 0",
    },
    Row {
        question: Question::File(About::Coordinate),
        form: "yardask coordinate FILE TRACKNUMBER POSITION",
        answers: "latitude and longitude at a position (centimetres) of a track",
    },
    Row {
        question: Question::File(About::Degrees),
        form: "yardask degrees FILE TRACKNUMBER POSITION",
        answers: "the same, and in degrees: a binary64 each, by its bits in hexadecimal",
    },
    Row {
        question: Question::File(About::PointDegrees),
        form: "yardask point-degrees FILE TRACK POINT",
        answers: "the coordinate of a point, and in degrees",
    },
    Row {
        question: Question::File(About::Record),
        form: "yardask record FILE OFFSET",
        answers: "the record of an X.2 that starts at an offset",
    },
    Row {
        question: Question::Routes(Engine::First),
        form: "yardask routes FILE START LIMIT BUDGET ROOM",
        answers: "the routes of an X.2 from a boundary, of at most LIMIT objects (0: 160)",
    },
    Row {
        question: Question::Routes(Engine::Second),
        form: "yardask routes2 FILE START LIMIT BUDGET ROOM",
        answers: "the same, by the second engine",
    },
    Row {
        question: Question::Ahead,
        form: "yardask ahead FILE1 FILE2 OFFSET LINK LIES",
        answers: "the objects ahead of OFFSET by its LINK (from 0) and 256 LIES 0, 1, 2 (characters, or bytes of a file)",
    },
];

// Where the question stands among the words of the command line, the program's own name being the first of them; and what follows it.
const QUESTION: usize = 1;

const FIRST: usize = 2;

const SECOND: usize = 3;

const NUMBER: usize = 3;

const NEXT_NUMBER: usize = 4;

const THIRD_NUMBER: usize = 5;

const FOURTH_NUMBER: usize = 6;

const OFFSET: usize = 4;

const LINK: usize = 5;

const LIES_WORD: usize = 6;

// The longest word that is shown or names a file, that may be a question, and that may be a number.
// Stays (6): the library's `env::args` gives no word where one of them is no UTF-8, and what is wrong is said with the word as it was given.
const WORD_ROOM: usize = 4096;

const QUESTION_ROOM: usize = 16;

const NUMBER_ROOM: usize = 32;

// How far a file is read: a byte more than the longest, since a file that has that is too long, whatever follows; and a byte further, so that it is
// told where reading fails there.
const FILE_MOST: usize = 65537;

// How far a file of lies is read, for the same reasons.
const LIES_MOST: usize = LIES + 2;

// The character of the first lie; those of the others follow it.
const NORMAL_CHARACTER: u8 = b'0';

// What is wrong with the command, and with which word of it.
#[derive(Clone, Copy)]
enum Wrong {
    Question,
    // too few or too many words, with the form of the question
    Count(&'static str),
    Number(usize),
    NotOpened(usize),
    NotRead(usize),
    Lies,
    // a list of routes that does not fit
    List,
}

impl fmt::Display for Wrong {
    fn fmt<W: fmt::Write>(&self, f: &mut fmt::Formatter<W>) -> fmt::Result {
        match self {
            Wrong::Question => f.write_str("unknown question"),
            Wrong::Count(_) => f.write_str("too few or too many words for the question"),
            Wrong::Number(_) => f.write_str("no number below 4294967296:"),
            Wrong::NotOpened(_) => f.write_str("cannot open the file"),
            Wrong::NotRead(_) => f.write_str("cannot read the file"),
            Wrong::Lies => {
                f.write_str("neither a file that can be read nor 256 characters 0, 1 and 2:")
            }
            Wrong::List => write!(
                f,
                "the list takes more words than the {MOST_ROOM} that this program has room for"
            ),
        }
    }
}

// ---- the words of the command

// How many words the command has, the program's own name being the first of them.
// Stays (2): in each program that counts them; a public function of a library is determined by its input (crate promises), and these are none.
fn word_count(rt: HostRuntime) -> usize {
    (0..usize::MAX)
        .take_while(|i| !matches!(rt.arg(*i, &mut []), Err(FillError::NotPresent)))
        .count()
}

// Whether a word is the name of a question.
fn is_named(row: Row, word: &[u8]) -> bool {
    row.form
        .split(' ')
        .nth(QUESTION)
        .is_some_and(|name| name.as_bytes() == word)
}

// The question of the command, by the table; none where it asks for help, which it does with no word.
fn asked(rt: HostRuntime) -> Result<Option<Row>, Wrong> {
    let mut room = [0u8; QUESTION_ROOM];
    let word = match rt.arg(QUESTION, &mut room) {
        Ok(n) => &room[..n],
        Err(FillError::NotPresent) => return Ok(None),
        Err(FillError::TooLong) => return Err(Wrong::Question),
    };
    if word == b"help".as_slice() || word == b"--help".as_slice() {
        return Ok(None);
    }
    let row = QUESTIONS.into_iter().find(|row| is_named(*row, word));
    row.map(Some).ok_or(Wrong::Question)
}

// The number that a word is, 0 where the command has no such word.
fn number(rt: HostRuntime, i: usize) -> Result<usize, Wrong> {
    let mut word = [0u8; NUMBER_ROOM];
    let found = match rt.arg(i, &mut word) {
        Ok(n) => number_in(&word[..n], u32::MAX),
        Err(FillError::NotPresent) => return Ok(0),
        Err(FillError::TooLong) => return Err(Wrong::Number(i)),
    };
    match u32::try_from(found) {
        Ok(n) => Ok(n as usize),
        Err(_) => Err(Wrong::Number(i)),
    }
}

// Opens the file that a word names.
// Stays (2): in each program that opens one; a public function of a library is determined by its input (crate promises), and a file is none.
fn opened(rt: HostRuntime, i: usize) -> Option<File> {
    let mut word = [0u8; WORD_ROOM];
    let n = rt.arg(i, &mut word).ok()?;
    fs::open(&rt, str::from_utf8(&word[..n]).ok()?).ok()
}

// Reads until the room is full or the input ends. It answers how many bytes then stand at the front of the room.
// Stays (2): the library's `read_to_end` begins with short reads, and of input that comes in packets a short read loses what it leaves.
fn read_full(input: &mut impl Read, room: &mut [u8]) -> io::Result<usize>
    ensures { IfOk result (λ n. n ≤ length room.new) }
{
    let mut got = 0;
    while got < room.len() {
        let n = input.read(&mut room[got..])?;
        if n == 0 {
            break;
        }
        got += n;
    }
    Ok(got)
}

// Reads the file that a word names, as far as there is room. It answers what it read.
// Stays (6): a vector needs more memory than the room, and so could run out of it where the room does not.
fn read<'a>(rt: HostRuntime, i: usize, room: &'a mut [u8]) -> Result<&'a [u8], Wrong> {
    let mut file = opened(rt, i).ok_or(Wrong::NotOpened(i))?;
    let n = read_full(&mut file, room).map_err(|_| Wrong::NotRead(i))?;
    Ok(&room[..n])
}

// The lies that the word itself is, a character for each.
fn lies_in_word(rt: HostRuntime) -> Option<[u8; LIES]> {
    let mut word = [0u8; LIES];
    let n = rt.arg(LIES_WORD, &mut word).ok()?;
    let lies = word.map(|c| c.wrapping_sub(NORMAL_CHARACTER));
    if n < LIES || lies.iter().any(|lie| UNKNOWN < *lie) {
        return None;
    }
    Some(lies)
}

// The lies, which are a word or stand in the file that it names.
fn lies<'a>(rt: HostRuntime, room: &'a mut [u8; LIES_MOST]) -> Result<&'a [u8], Wrong> {
    match lies_in_word(rt) {
        Some(lies) => {
            room[..LIES].copy_from_slice(&lies);
            Ok(&room[..LIES])
        }
        None => read(rt, LIES_WORD, room).map_err(|_| Wrong::Lies),
    }
}

// ---- the answers

// Answers a question about one file.
fn answer(out: Stdout, about: About, f: &[u8], a: usize, b: usize) {
    match about {
        About::X1 => answers::x1(out, f),
        About::X1Version1 => answers::x1_version_1(out, f),
        About::X2 => answers::x2(out, f),
        About::Header1 => answers::header1(out, f),
        About::Header2 => answers::header2(out, f),
        About::Track => answers::track(out, f, a),
        About::Point => answers::point(out, f, a, b),
        About::Coordinate => answers::coordinate(out, f, a, b),
        About::Degrees => answers::degrees(out, f, a, b),
        About::PointDegrees => answers::point_degrees(out, f, a, b),
        About::Record => answers::record(out, f, a),
    };
}

// The same, about the file and by the numbers of the command.
fn ask(rt: HostRuntime, about: About) -> Result<(), Wrong> {
    let a = number(rt, NUMBER)?;
    let b = number(rt, NEXT_NUMBER)?;
    let mut room = [0u8; FILE_MOST];
    let f = read(rt, FIRST, &mut room)?;
    answer(rt.stdout(), about, f, a, b);
    Ok(())
}

// Answers the question about a pair.
fn ask_pair(rt: HostRuntime) -> Result<(), Wrong> {
    let mut first_room = [0u8; FILE_MOST];
    let first = read(rt, FIRST, &mut first_room)?;
    let mut second_room = [0u8; FILE_MOST];
    let second = read(rt, SECOND, &mut second_room)?;
    answers::pair(rt.stdout(), first, second);
    Ok(())
}

// Answers the question routes, by an engine. It is wrong where the list would fit the words that are asked for and not those that are here.
fn ask_routes(rt: HostRuntime, engine: Engine) -> Result<(), Wrong> {
    let start = number(rt, NUMBER)?;
    let limit = number(rt, NEXT_NUMBER)?;
    let budget = number(rt, THIRD_NUMBER)?;
    let words = number(rt, FOURTH_NUMBER)?;
    let mut room = [0u8; FILE_MOST];
    let f = read(rt, FIRST, &mut room)?;
    let number = listings::routes(rt.stdout(), engine, f, start, limit, budget, words);
    if number == NO_ROOM && MOST_ROOM < words {
        return Err(Wrong::List);
    }
    Ok(())
}

// Answers the question ahead.
fn ask_ahead(rt: HostRuntime) -> Result<(), Wrong> {
    let offset = number(rt, OFFSET)?;
    let link = number(rt, LINK)?;
    let mut first_room = [0u8; FILE_MOST];
    let first = read(rt, FIRST, &mut first_room)?;
    let mut second_room = [0u8; FILE_MOST];
    let second = read(rt, SECOND, &mut second_room)?;
    let mut lies_room = [0u8; LIES_MOST];
    let lies = lies(rt, &mut lies_room)?;
    answers::ahead(rt.stdout(), first, second, offset, link, lies, ROOM_LEAST);
    Ok(())
}

// ---- the command

// The lines of help.
fn help(out: Stdout) {
    for row in QUESTIONS {
        let _ = println!(out; "{:<47}{}", row.form, row.answers);
    }
}

// Answers the command.
fn command(rt: HostRuntime) -> Result<(), Wrong> {
    let Some(row) = asked(rt)? else {
        help(rt.stdout());
        return Ok(());
    };
    if word_count(rt) != row.form.split(' ').count() {
        return Err(Wrong::Count(row.form));
    }
    match row.question {
        Question::File(about) => ask(rt, about),
        Question::Pair => ask_pair(rt),
        Question::Routes(engine) => ask_routes(rt, engine),
        Question::Ahead => ask_ahead(rt),
    }
}

// Shows a word of the command, in quotes.
// Stays (2): in each program that shows one; a public function of a library is determined by its input (crate promises), and these are none.
fn show(rt: HostRuntime, i: usize) {
    let mut word = [0u8; WORD_ROOM];
    let n = rt.arg(i, &mut word).unwrap_or(0);
    let err = rt.stderr();
    let _ = err.write_all(b" '");
    let _ = err.write_all(&word[..n]);
    let _ = err.write_all(b"'");
}

// Says what is wrong, with which word, how the question is asked, and how to ask for help.
fn say(rt: HostRuntime, wrong: Wrong) {
    let err = rt.stderr();
    let _ = print!(err; "yardask: {wrong}");
    match wrong {
        Wrong::Question | Wrong::Count(_) => show(rt, QUESTION),
        Wrong::Number(i) | Wrong::NotOpened(i) | Wrong::NotRead(i) => show(rt, i),
        Wrong::Lies => show(rt, LIES_WORD),
        Wrong::List => {
            let _ = err.write_all(b"\n");
            return;
        }
    }
    if let Wrong::Count(form) = wrong {
        let _ = print!(err; ", which is asked by {form}");
    }
    let _ = println!(err; "; yardask help lists the questions");
}

fn main(rt: HostRuntime) {
    if let Err(wrong) = command(rt) {
        say(rt, wrong);
    }
}
