// The reader for other languages: verdicts, pair, questions and the loader as functions with numbers and byte slices only. `exports_c` has
// each under its C name, and `include/yard.h` says what each argument and each result means.
#![tactic(auto)]

ghost use Rattle.std.specs.Prelude.{◌≡◌, length};
ghost use Rattle.checksum.specs.Checksum.{checksum_of};
ghost use Rattle.x1_verdict.specs.Facts as geography;
ghost use Rattle.x2_verdict.specs.Facts as application;
ghost use Rattle.x2_verdict.specs.Answers.{named_header_answer, record_answer};
ghost use Rattle.x2_verdict.specs.Questions.{named_header_of, record_of};
ghost use Rattle.pair.specs.Pair.{pair_of};
ghost use Rattle.x1_questions.specs.Answers.{header_answer, track_answer, point_answer, coordinate_answer};
ghost use Rattle.x1_questions.specs.Questions.{header_of, track_of, point_of, coordinate_asked};
ghost use Rattle.x1_degrees.specs.Questions.{degrees_asked, point_degrees_of};
ghost use Rattle.route_walks.specs.Lent.{room_of};
ghost use Rattle.route_lister.specs.Answered.{routes_answer};
ghost use Rattle.route_question.specs.Routes.{routes_asked, left_asked};
ghost use Rattle.ahead.specs.Asked as ahead;
ghost use Rattle.transfer.specs.Calls.{piece_room};
ghost use Rattle.c_values.specs.Degrees.{degrees_laid};
ghost use Rattle.c_values.specs.Ahead.{ahead_shown};
ghost use Rattle.c_values.specs.Shown.{verdict_shown, pair_shown, shown, leaves, words_left};
ghost use Rattle.c_values.specs.Load.{state_in, state_answer, identity_from, open_shown, open_leaves, piece_shown, piece_leaves, finish_shown};

use c_values::load::{state_in, state_words};
use c_values::seen::ahead_answer;
use c_values::values::{
    coordinate_words, degrees_words, header_words, named_header_words, point_words, record_words,
    routes_words, track_words,
};
use c_values::words::{COUNTS_SIZE, answer, pair_refused, refused, show};
use route_walks::Tally;
use transfer::{Identity, Step};
use verdict::Fault;
use x1_degrees::Surveyed;

// The checksum of some bytes.
pub fn yard_checksum(bytes: &[u8]) -> u32
    ensures { result ≡ checksum_of bytes.now }
{
    checksum::of(bytes) as u32
}

// The number that is returned for a verdict of one file.
fn judged(v: Result<(), Fault>) -> u64
    ensures { result ≡ verdict_shown v }
{
    match v {
        Ok(()) => answer(0, 0, 0),
        Err(fault) => refused(fault),
    }
}

// The verdict of an X.1.
pub fn yard_x1(file: &[u8]) -> u64
    ensures { result ≡ verdict_shown (geography.verdict_of file.now) }
{
    judged(x1_verdict::verdicts::verdict_of(file))
}

// The verdict of an X.1 by a reader that knows structure version 1 alone.
pub fn yard_x1_version_1(file: &[u8]) -> u64
    ensures { result ≡ verdict_shown (geography.verdict_by 1 file.now) }
{
    judged(x1_verdict::verdicts::version_1_verdict(file))
}

// The verdict of an X.2.
pub fn yard_x2(file: &[u8]) -> u64
    ensures { result ≡ verdict_shown (application.verdict_of file.now) }
{
    judged(x2_verdict::verdict_of(file))
}

// The verdict of a station's two files, the X.1 first.
pub fn yard_pair(first: &[u8], second: &[u8]) -> u64
    ensures { result ≡ pair_shown (pair_of first.now second.now) }
{
    match pair::pair_verdict(first, second) {
        Ok(()) => answer(0, 0, 0),
        Err(p) => pair_refused(p),
    }
}

// The header of an X.1.
pub fn yard_header1(file: &[u8], out: &mut [u8]) -> u64
    ensures value { result ≡ shown (header_answer (header_of file.now)) out.old }
    ensures out_after { out.new ≡ leaves (header_answer (header_of file.now)) out.old }
{
    match x1_questions::header(file) {
        Ok(h) => show(&header_words(h), out),
        Err(fault) => refused(fault),
    }
}

// The header of an X.2.
pub fn yard_header2(file: &[u8], out: &mut [u8]) -> u64
    ensures value { result ≡ shown (named_header_answer (named_header_of file.now)) out.old }
    ensures out_after { out.new ≡ leaves (named_header_answer (named_header_of file.now)) out.old }
{
    match x2_verdict::header(file) {
        Ok(h) => show(&named_header_words(h), out),
        Err(fault) => refused(fault),
    }
}

// The track of an index.
pub fn yard_track(file: &[u8], index: usize, out: &mut [u8]) -> u64
    ensures value { result ≡ shown (track_answer (track_of file.now index)) out.old }
    ensures out_after { out.new ≡ leaves (track_answer (track_of file.now index)) out.old }
{
    match x1_questions::track(file, index) {
        Ok(t) => show(&track_words(t), out),
        Err(fault) => refused(fault),
    }
}

// The point of an index in the track of an index.
pub fn yard_point(file: &[u8], track: usize, index: usize, out: &mut [u8]) -> u64
    ensures value { result ≡ shown (point_answer (point_of file.now track index)) out.old }
    ensures out_after { out.new ≡ leaves (point_answer (point_of file.now track index)) out.old }
{
    match x1_questions::point(file, track, index) {
        Ok(p) => show(&point_words(p), out),
        Err(fault) => refused(fault),
    }
}

// The coordinate at a position of the track with a number.
pub fn yard_coordinate(file: &[u8], number: usize, position: usize, out: &mut [u8]) -> u64
    ensures value { result ≡ shown (coordinate_answer (coordinate_asked file.now number position)) out.old }
    ensures out_after { out.new ≡ leaves (coordinate_answer (coordinate_asked file.now number position)) out.old }
{
    match x1_questions::coordinate(file, number, position) {
        Ok(c) => show(&coordinate_words(c), out),
        Err(fault) => refused(fault),
    }
}

// Answers with a coordinate and its degrees, or says why there is none.
fn show_degrees(a: Result<Surveyed, Fault>, out: &mut [u8]) -> u64
    ensures value { result ≡ shown (degrees_laid a) out.old }
    ensures out_after { out.new ≡ leaves (degrees_laid a) out.old }
{
    match a {
        Ok(s) => show(&degrees_words(s), out),
        Err(fault) => refused(fault),
    }
}

// The coordinate at a position of the track with a number, in degrees too.
pub fn yard_degrees(file: &[u8], number: usize, position: usize, out: &mut [u8]) -> u64
    ensures value { result ≡ shown (degrees_laid (degrees_asked file.now number position)) out.old }
    ensures out_after { out.new ≡ leaves (degrees_laid (degrees_asked file.now number position)) out.old }
{
    show_degrees(x1_degrees::degrees_at(file, number, position), out)
}

// The coordinate of the point of an index in the track of an index, in degrees too.
pub fn yard_point_degrees(file: &[u8], track: usize, index: usize, out: &mut [u8]) -> u64
    ensures value { result ≡ shown (degrees_laid (point_degrees_of file.now track index)) out.old }
    ensures out_after { out.new ≡ leaves (degrees_laid (point_degrees_of file.now track index)) out.old }
{
    show_degrees(x1_degrees::point_degrees(file, track, index), out)
}

// The record that starts at a place.
pub fn yard_record(file: &[u8], offset: usize, out: &mut [u8]) -> u64
    ensures value { result ≡ shown (record_answer (record_of file.now offset)) out.old }
    ensures out_after { out.new ≡ leaves (record_answer (record_of file.now offset)) out.old }
{
    match x2_verdict::record_at(file, offset) {
        Ok(r) => show(&record_words(r), out),
        Err(fault) => refused(fault),
    }
}

// Answers with the counts of a list of routes, or says why there is none.
fn show_counts(a: Result<Tally, Fault>, counts: &mut [u8]) -> u64
    ensures value { result ≡ shown (routes_answer a) counts.old }
    ensures counts_after { counts.new ≡ leaves (routes_answer a) counts.old }
{
    match a {
        Ok(t) => show(&routes_words(t), counts),
        Err(fault) => refused(fault),
    }
}

// Every route from a boundary. Where the counts have no room the list is made over a scrap, so that the words keep every byte and every
// other refusal comes first.
pub fn yard_routes(
    file: &[u8],
    start: usize,
    limit: usize,
    budget: usize,
    counts: &mut [u8],
    words: &mut [u8],
) -> u64
    ensures value { result ≡ shown (routes_answer (routes_asked file.now start limit budget (room_of words.old))) counts.old }
    ensures counts_after { counts.new ≡ leaves (routes_answer (routes_asked file.now start limit budget (room_of words.old))) counts.old }
    ensures words_after { words.new ≡ words_left counts.old words.old (left_asked file.now start limit budget words.old) }
{
    if counts.len() < COUNTS_SIZE {
        let mut scrap = [0u8; 1];
        let a = route_question::routes(file, start, limit, budget, &mut scrap);
        return show_counts(a, counts);
    }
    let a = route_question::routes(file, start, limit, budget, words);
    show_counts(a, counts)
}

// The same, by the second lister, for a host with a small stack.
pub fn yard_routes_flat(
    file: &[u8],
    start: usize,
    limit: usize,
    budget: usize,
    counts: &mut [u8],
    words: &mut [u8],
) -> u64
    ensures value { result ≡ shown (routes_answer (routes_asked file.now start limit budget (room_of words.old))) counts.old }
    ensures counts_after { counts.new ≡ leaves (routes_answer (routes_asked file.now start limit budget (room_of words.old))) counts.old }
    ensures words_after { words.new ≡ words_left counts.old words.old (left_asked file.now start limit budget words.old) }
{
    if counts.len() < COUNTS_SIZE {
        let mut scrap = [0u8; 1];
        let a = route_question::routes_flat(file, start, limit, budget, &mut scrap);
        return show_counts(a, counts);
    }
    let a = route_question::routes_flat(file, start, limit, budget, words);
    show_counts(a, counts)
}

// What lies ahead of the object at an offset of the X.2 of a pair, which is left by the link of an index.
pub fn yard_ahead(
    first: &[u8],
    second: &[u8],
    offset: usize,
    link: usize,
    lies: &[u8],
    out: &mut [u8],
) -> u64
    ensures value { result ≡ ahead_shown (ahead.ahead_asked first.now second.now offset link lies.now (length out.old)) }
    ensures out_after { out.new ≡ ahead.left_asked first.now second.now offset link lies.now out.old }
{
    ahead_answer(ahead::ahead(first, second, offset, link, lies, out))
}

// Answers a call of the loader: the state after an accepted one is put in the bytes lent.
fn show_state(step: Step, state: &mut [u8]) -> u64
    ensures value { result ≡ shown (state_answer step.verdict step.state) state.old }
    ensures state_after { state.new ≡ leaves (state_answer step.verdict step.state) state.old }
{
    let verdict = step.verdict;
    match verdict {
        Ok(()) => show(&state_words(step.state), state),
        Err(fault) => refused(fault),
    }
}

// Opens a transfer of the file with an identity.
pub fn yard_load_open(
    state: &mut [u8],
    station: usize,
    kind: usize,
    version: usize,
    total: usize,
    trailer: usize,
    room: &[u8],
) -> u64
    ensures value { result ≡ open_shown state.old (identity_from station kind version total trailer) (length room.now) }
    ensures state_after { state.new ≡ open_leaves state.old (identity_from station kind version total trailer) (length room.now) }
{
    let identity = Identity {
        station,
        kind,
        version,
        total,
        trailer,
    };
    let step = transfer::opening::opening(state_in(state), identity, room.len());
    show_state(step, state)
}

// Takes a piece.
pub fn yard_load_piece(state: &mut [u8], piece: &[u8], room: &mut [u8]) -> u64
    ensures value { result ≡ piece_shown state.old piece.now (length room.old) }
    ensures state_after { state.new ≡ piece_leaves state.old piece.now (length room.old) }
    ensures room_after { room.new ≡ piece_room (state_in state.old) piece.now room.old }
{
    let step = transfer::pieces::piece(state_in(state), piece, room);
    show_state(step, state)
}

// Finishes a transfer.
pub fn yard_load_finish(state: &[u8], room: &[u8]) -> u64
    ensures { result ≡ finish_shown state.now room.now }
{
    judged(transfer::finishing::finish(state_in(state), room))
}
