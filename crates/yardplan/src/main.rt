// The routes of a station beside the signal engineer's plan: lists the routes of an X.2 file from each start that the plan names, and says where
// list and plan differ. docs/PLAN.md has what a plan is and what is printed. What is wrong with the command, or with a line of the plan,
// is said on standard error.
#![tactic(auto)]

ghost use Rattle.std.specs.Prelude.{◌≡◌, ◌≤◌, length, IfOk};
ghost use Rattle.std.specs.Iterator.{YieldsFirstRef, at_most};
ghost use Rattle.plan_reading.specs.ReadPlan.{lines_in, plan_read, named_by, named_in};

use decimal::number_in;
use plan_lines::{Slip, length_before};
use plan_question::{Compared, MOST_ROOM};
use plan_reading::{Reading, Said, take};
use plan_routes::{is_apart, route_end};
use route_question::Engine;
use std::env::FillError;
use std::fs::File;
use std::io::{Read, Stderr, Stdout};
use std::rt::Env;
use std::{fmt, fs, io, str};
use verdict::{Fault, answer_number, answer_place};

// Where the words of the command stand, the program's own name being the first of them, and how many there may be before the one that picks
// the second engine.
const FILE: usize = 1;

const PLAN: usize = 2;

const LIMIT: usize = 3;

const BUDGET: usize = 4;

const ROOM: usize = 5;

const WORDS_LEAST: usize = 3;

const WORDS_MOST: usize = 6;

// The last word of a command, after both files, where the second engine is to list the routes.
const SECOND_ENGINE: &[u8] = b"routes2";

// What a limit, a budget and a room are that the command leaves out.
const LIMIT_LEFT_OUT: usize = 0;

const BUDGET_LEFT_OUT: usize = 65535;

const ROOM_LEFT_OUT: usize = 65535;

// The longest word that is shown, and that may name a file; and the longest that may be a number.
const WORD_ROOM: usize = 4096;

const NUMBER_ROOM: usize = 32;

// How far a file is read: a byte more than the longest, since a file that has that is too long, whatever follows; and a byte further, so that it is
// told where reading fails there.
const FILE_MOST: usize = 65537;

// How far a plan is read, for the same reasons, and how long it may be.
const PLAN_MOST: usize = 1048578;

const PLAN_LONGEST: usize = 1048576;

// How many starts there may be: a start is an offset.
const STARTS: usize = 65536;

const LINE_END: u8 = b'\n';

// The lines of a text, one after the other.
#[derive(Drop)]
struct Lines<'a>(&'a [u8]);

impl<'a> Iterator for Lines<'a> {
    type Item = &'a [u8];

    ghost next_gives = { YieldsFirstRef (λ s. lines_in s.0.now) };

    ghost remaining = { λ s. at_most (length s.0.now) };

    fn next(&mut self) -> Option<&'a [u8]> {
        if self.0.is_empty() {
            return None;
        }
        let (line, rest) = self.0.split_at(length_before(self.0, LINE_END));
        self.0 = &rest[rest.len().min(1)..];
        Some(line)
    }
}

// What the routes are asked with.
#[derive(Clone, Copy)]
struct Question {
    engine: Engine,
    limit: usize,
    budget: usize,
    room: usize,
}

// What is wrong with the command, and with which word of it; or with the plan.
#[derive(Clone, Copy)]
enum Wrong {
    // too few or too many words
    Count,
    Number(usize),
    // more words for the list than there are
    Room,
    NotOpened(usize),
    NotRead(usize),
    PlanLong,
    // no memory for the plan or for its words
    Memory,
    NoStart,
}

impl fmt::Display for Wrong {
    fn fmt<W: fmt::Write>(&self, f: &mut fmt::Formatter<W>) -> fmt::Result {
        match self {
            Wrong::Count => f.write_str(
                "too few or too many words; it is asked by yardplan FILE PLAN [LIMIT [BUDGET [ROOM]]] [routes2]",
            ),
            Wrong::Number(_) => f.write_str("no number below 4294967296:"),
            Wrong::Room => write!(
                f,
                "more words than the {MOST_ROOM} that this program has room for:"
            ),
            Wrong::NotOpened(_) => f.write_str("cannot open the file"),
            Wrong::NotRead(_) => f.write_str("cannot read the file"),
            Wrong::PlanLong => write!(f, "the plan is longer than {PLAN_LONGEST} bytes"),
            Wrong::Memory => f.write_str("no memory for the plan"),
            Wrong::NoStart => f.write_str("the plan names no start"),
        }
    }
}

// ---- standard error

// Shows a word of the command, in quotes.
// Stays (2): in each program that shows one; a public function of a library is determined by its input (crate promises), and these are none.
fn show(rt: HostRuntime, i: usize) {
    let mut word = [0u8; WORD_ROOM];
    let n = rt.arg(i, &mut word).unwrap_or(0);
    let err = rt.stderr();
    let _ = err.write_all(b" '");
    let _ = err.write_all(&word[..n]);
    let _ = err.write_all(b"'");
}

// Says what is wrong, and with which word.
fn say(rt: HostRuntime, wrong: Wrong) {
    let err = rt.stderr();
    let _ = print!(err; "yardplan: {wrong}");
    match wrong {
        Wrong::Number(i) | Wrong::NotOpened(i) | Wrong::NotRead(i) => show(rt, i),
        Wrong::Room => show(rt, ROOM),
        Wrong::Count | Wrong::PlanLong | Wrong::Memory | Wrong::NoStart => {}
    }
    let _ = err.write_all(b"\n");
}

// What is wrong with a line of the plan.
fn slip_text(slip: Slip) -> &'static str {
    match slip {
        Slip::From => "'from' takes one offset from 0 to 65535",
        Slip::Word => "a word is no offset from 0 to 65535",
        Slip::Few => "a route has at least 2 offsets",
        Slip::Many => "a route has at most 512 offsets",
        Slip::Elsewhere => "the route does not start at the offset of the 'from' line above it",
        Slip::Again => "the route stands in an earlier line",
        Slip::NoRoom => "there is no room for the route",
    }
}

// ---- the plan

// Names the start that a line names, or says what is wrong with the line.
fn tell(err: Stderr, number: usize, said: Result<Said, Slip>, named: &mut [bool; STARTS])
    ensures { named.new ≡ named_by said named.old }
{
    match said {
        Ok(said) => match said {
            Said::Nothing => {}
            Said::Start(start) => named[usize::from(start)] = true,
            Said::Route(start) => named[usize::from(start)] = true,
        },
        Err(slip) => {
            let why = slip_text(slip);
            let _ = println!(err; "yardplan: line {number} of the plan: {why}");
        }
    }
}

// Reads a plan: its routes go to the front of `plan`, and its starts are named. It answers how many words the routes take.
fn read_plan(err: Stderr, text: &[u8], plan: &mut [u16], named: &mut [bool; STARTS]) -> usize
    ensures value { result ≡ (plan_read text.now plan.old).reading.words }
    ensures plan_after { plan.new ≡ (plan_read text.now plan.old).lent }
    ensures named_after { named.new ≡ named_in text.now plan.old named.old }
    ensures upper_bound { result ≤ length plan.new }
{
    let mut r = Reading {
        start: None,
        words: 0,
    };
    for (k, line) in Lines(text).enumerate() {
        let taken = take(line, r, plan);
        tell(err, k + 1, taken.said, named);
        r = taken.reading;
    }
    r.words
}

// ---- standard output

// A route after its word, on a line.
fn route_line(out: Stdout, name: &str, route: &[u16]) {
    let _ = print!(out; "{name}");
    for offset in route {
        let _ = print!(out; " {offset}");
    }
    let _ = println!(out);
}

// Of the routes in some words those that are picked, a line for each.
fn route_lines<F: Fn(&[u16]) -> bool>(out: Stdout, name: &str, words: &[u16], picks: F)
    requires { F.IsAlwaysCallable picks }
{
    let mut rest = words;
    // Stays (3): an iterator of plan_routes would be public, and what it hands out, a reference, has no theorem NAME_determined.
    while !rest.is_empty() {
        let (first, after) = rest.split_at(route_end(rest, 0));
        let route = &first[1..];
        if picks(route) {
            route_line(out, name, route);
        }
        rest = after;
    }
}

// What a list and the plan are to each other: where they differ, the routes of both, those that are missing and those that are extra.
fn compared_lines(out: Stdout, c: Compared, start: usize, plan: &[u16], list: &[u16]) {
    let Compared {
        routes,
        missing,
        extra,
        ..
    } = c;
    if missing == 0 && extra == 0 {
        let _ = println!(out; " agrees {routes} routes");
        return;
    }
    let both = routes.saturating_sub(extra);
    let _ = println!(out; " differs both {both} missing {missing} extra {extra}");
    route_lines(out, "both", list, |route| !is_apart(route, start, plan));
    route_lines(out, "missing", plan, |route| is_apart(route, start, list));
    route_lines(out, "extra", list, |route| is_apart(route, start, plan));
}

// Why routes are refused.
fn refused_line(out: Stdout, fault: Fault) {
    let number = fault.number();
    let _ = println!(out; " refused {number}");
}

// What is answered of a start, with the words that are lent for the list.
fn answer_lines(out: Stdout, f: &[u8], start: usize, q: Question, plan: &[u16], list: &mut [u16]) {
    match plan_question::compare(q.engine, f, start, q.limit, q.budget, plan, list) {
        Ok(c) => compared_lines(out, c, start, plan, &list[..c.words]),
        Err(fault) => refused_line(out, fault),
    }
}

// The routes from a start beside the plan.
fn start_lines(out: Stdout, f: &[u8], start: usize, q: Question, plan: &[u16]) {
    let _ = print!(out; "from {start}");
    let mut list = [0u16; MOST_ROOM];
    answer_lines(out, f, start, q, plan, &mut list[..q.room.min(MOST_ROOM)]);
}

// Compares an X.2 file with a plan, from each start that the plan names.
fn compare(rt: HostRuntime, f: &[u8], text: &[u8], q: Question) -> Result<(), Wrong> {
    let out = rt.stdout();
    let fault = x2_verdict::verdict_of(f).err();
    let _ = println!(out; "verdict {} {}", answer_number(fault), answer_place(fault));
    if PLAN_LONGEST < text.len() {
        return Err(Wrong::PlanLong);
    }
    // Stays (6): the marks of the starts are what the definition named_after and the contract of read_plan speak of.
    let mut named = [false; STARTS];
    // A route of n offsets, 2 or more, takes n + 1 words, and its line has 2n - 1 bytes or more and its end, if it is not the last: three words at most
    // for each four bytes.
    let most = 3 * (text.len() + 1) / 4 + 1;
    let mut plan = vec![in rt.alloc(); 0u16; most].map_err(|_| Wrong::Memory)?;
    let words = read_plan(rt.stderr(), text, &mut plan, &mut named);
    for (start, _) in named.iter().enumerate().filter(|(_, named)| **named) {
        start_lines(out, f, start, q, &plan[..words]);
    }
    if named.contains(&true) {
        Ok(())
    } else {
        Err(Wrong::NoStart)
    }
}

// ---- the command

// How many words the command has, the program's own name being the first of them.
// Stays (2): in each program that counts them; a public function of a library is determined by its input (crate promises), and these are none.
fn word_count(rt: HostRuntime) -> usize {
    (0..usize::MAX)
        .take_while(|i| !matches!(rt.arg(*i, &mut []), Err(FillError::NotPresent)))
        .count()
}

// The engine that the last of the words picks, if it stands after both files; and how many words there are before the one that picks it.
fn picked(rt: HostRuntime, words: usize) -> (Engine, usize) {
    if words <= WORDS_LEAST {
        return (Engine::First, words);
    }
    let mut word = [0u8; NUMBER_ROOM];
    match rt.arg(words - 1, &mut word) {
        Ok(n) if &word[..n] == SECOND_ENGINE => (Engine::Second, words - 1),
        _ => (Engine::First, words),
    }
}

// The number that a word of the command is, and what it is where that word is none of the first so many. It is said where the word is no
// number.
fn number(rt: HostRuntime, words: usize, i: usize, left_out: usize) -> Option<usize> {
    if words <= i {
        return Some(left_out);
    }
    let mut word = [0u8; NUMBER_ROOM];
    if let Ok(n) = rt.arg(i, &mut word) {
        if let Ok(found) = u32::try_from(number_in(&word[..n], u32::MAX)) {
            return Some(found as usize);
        }
    }
    say(rt, Wrong::Number(i));
    None
}

// What the routes are asked with, where each number of the command is one.
fn asked_with(rt: HostRuntime, engine: Engine, words: usize) -> Option<Question> {
    let limit = number(rt, words, LIMIT, LIMIT_LEFT_OUT);
    let budget = number(rt, words, BUDGET, BUDGET_LEFT_OUT);
    let room = number(rt, words, ROOM, ROOM_LEFT_OUT);
    Some(Question {
        engine,
        limit: limit?,
        budget: budget?,
        room: room?,
    })
}

// Opens the file that a word names.
// Stays (2): in each program that opens one; a public function of a library is determined by its input (crate promises), and a file is none.
fn opened(rt: HostRuntime, i: usize) -> Option<File> {
    let mut word = [0u8; WORD_ROOM];
    let n = rt.arg(i, &mut word).ok()?;
    fs::open(&rt, str::from_utf8(&word[..n]).ok()?).ok()
}

// Reads until the room is full or the input ends. It answers how many bytes then stand at the front of the room.
// Stays (2): the library's `read_to_end` begins with short reads, and of input that comes in packets a short read loses what it leaves.
fn read_full(input: &mut impl Read, room: &mut [u8]) -> io::Result<usize>
    ensures { IfOk result (λ n. n ≤ length room.new) }
{
    let mut got = 0;
    while got < room.len() {
        let n = input.read(&mut room[got..])?;
        if n == 0 {
            break;
        }
        got += n;
    }
    Ok(got)
}

// Reads the file that a word names, as far as there is room. It answers what it read.
// Stays (2): in each program that reads one; a public function of a library is determined by its input (crate promises), and a file is none.
fn read<'a>(rt: HostRuntime, i: usize, room: &'a mut [u8]) -> Result<&'a [u8], Wrong> {
    let mut file = opened(rt, i).ok_or(Wrong::NotOpened(i))?;
    let n = read_full(&mut file, room).map_err(|_| Wrong::NotRead(i))?;
    Ok(&room[..n])
}

// Compares the files that the command names.
fn command(rt: HostRuntime) -> Result<(), Wrong> {
    let (engine, words) = picked(rt, word_count(rt));
    if words < WORDS_LEAST || WORDS_MOST < words {
        return Err(Wrong::Count);
    }
    let Some(q) = asked_with(rt, engine, words) else {
        return Ok(());
    };
    if MOST_ROOM < q.room {
        return Err(Wrong::Room);
    }
    let mut file_room = [0u8; FILE_MOST];
    let f = read(rt, FILE, &mut file_room)?;
    let mut plan_room = vec![in rt.alloc(); 0u8; PLAN_MOST].map_err(|_| Wrong::Memory)?;
    let text = read(rt, PLAN, &mut plan_room)?;
    compare(rt, f, text, q)
}

fn main(rt: HostRuntime) {
    if let Err(wrong) = command(rt) {
        say(rt, wrong);
    }
}
