// The C library: the functions of `exports` under their C names, each with the same clauses. `include/yard.h` says what each argument and each
// result means.
// Stays (2): the C interface: a function with a C name stands in a static library, and each here just calls that of `exports`.
#![tactic(auto)]

ghost use Rattle.std.specs.Prelude.{◌≡◌, length};
ghost use Rattle.checksum.specs.Checksum.{checksum_of};
ghost use Rattle.x1_verdict.specs.Facts as geography;
ghost use Rattle.x2_verdict.specs.Facts as application;
ghost use Rattle.x2_verdict.specs.Answers.{named_header_answer, record_answer};
ghost use Rattle.x2_verdict.specs.Questions.{named_header_of, record_of};
ghost use Rattle.pair.specs.Pair.{pair_of};
ghost use Rattle.x1_questions.specs.Answers.{header_answer, track_answer, point_answer, coordinate_answer};
ghost use Rattle.x1_questions.specs.Questions.{header_of, track_of, point_of, coordinate_asked};
ghost use Rattle.x1_degrees.specs.Questions.{degrees_asked, point_degrees_of};
ghost use Rattle.route_walks.specs.Lent.{room_of};
ghost use Rattle.route_lister.specs.Answered.{routes_answer};
ghost use Rattle.route_question.specs.Routes.{routes_asked, left_asked};
ghost use Rattle.ahead.specs.Asked as ahead;
ghost use Rattle.transfer.specs.Calls.{piece_room};
ghost use Rattle.c_values.specs.Degrees.{degrees_laid};
ghost use Rattle.c_values.specs.Ahead.{ahead_shown};
ghost use Rattle.c_values.specs.Shown.{verdict_shown, pair_shown, shown, leaves, words_left};
ghost use Rattle.c_values.specs.Load.{state_in, state_answer, identity_from, open_shown, open_leaves, piece_shown, piece_leaves, finish_shown};

// The checksum of some bytes.
#[unsafe(no_mangle)]
pub extern "C" fn yard_checksum(bytes: &[u8]) -> u32
    ensures { result ≡ checksum_of bytes.now }
{
    exports::yard_checksum(bytes)
}

// The verdict of an X.1.
#[unsafe(no_mangle)]
pub extern "C" fn yard_x1(file: &[u8]) -> u64
    ensures { result ≡ verdict_shown (geography.verdict_of file.now) }
{
    exports::yard_x1(file)
}

// The verdict of an X.1 by a reader that knows structure version 1 alone.
#[unsafe(no_mangle)]
pub extern "C" fn yard_x1_version_1(file: &[u8]) -> u64
    ensures { result ≡ verdict_shown (geography.verdict_by 1 file.now) }
{
    exports::yard_x1_version_1(file)
}

// The verdict of an X.2.
#[unsafe(no_mangle)]
pub extern "C" fn yard_x2(file: &[u8]) -> u64
    ensures { result ≡ verdict_shown (application.verdict_of file.now) }
{
    exports::yard_x2(file)
}

// The verdict of a station's two files, the X.1 first.
#[unsafe(no_mangle)]
pub extern "C" fn yard_pair(first: &[u8], second: &[u8]) -> u64
    ensures { result ≡ pair_shown (pair_of first.now second.now) }
{
    exports::yard_pair(first, second)
}

// The header of an X.1.
#[unsafe(no_mangle)]
pub extern "C" fn yard_header1(file: &[u8], out: &mut [u8]) -> u64
    ensures value { result ≡ shown (header_answer (header_of file.now)) out.old }
    ensures out_after { out.new ≡ leaves (header_answer (header_of file.now)) out.old }
{
    exports::yard_header1(file, out)
}

// The header of an X.2.
#[unsafe(no_mangle)]
pub extern "C" fn yard_header2(file: &[u8], out: &mut [u8]) -> u64
    ensures value { result ≡ shown (named_header_answer (named_header_of file.now)) out.old }
    ensures out_after { out.new ≡ leaves (named_header_answer (named_header_of file.now)) out.old }
{
    exports::yard_header2(file, out)
}

// The track of an index.
#[unsafe(no_mangle)]
pub extern "C" fn yard_track(file: &[u8], index: usize, out: &mut [u8]) -> u64
    ensures value { result ≡ shown (track_answer (track_of file.now index)) out.old }
    ensures out_after { out.new ≡ leaves (track_answer (track_of file.now index)) out.old }
{
    exports::yard_track(file, index, out)
}

// The point of an index in the track of an index.
#[unsafe(no_mangle)]
pub extern "C" fn yard_point(file: &[u8], track: usize, index: usize, out: &mut [u8]) -> u64
    ensures value { result ≡ shown (point_answer (point_of file.now track index)) out.old }
    ensures out_after { out.new ≡ leaves (point_answer (point_of file.now track index)) out.old }
{
    exports::yard_point(file, track, index, out)
}

// The coordinate at a position of the track with a number.
#[unsafe(no_mangle)]
pub extern "C" fn yard_coordinate(
    file: &[u8],
    number: usize,
    position: usize,
    out: &mut [u8],
) -> u64
    ensures value { result ≡ shown (coordinate_answer (coordinate_asked file.now number position)) out.old }
    ensures out_after { out.new ≡ leaves (coordinate_answer (coordinate_asked file.now number position)) out.old }
{
    exports::yard_coordinate(file, number, position, out)
}

// The coordinate at a position of the track with a number, in degrees too.
#[unsafe(no_mangle)]
pub extern "C" fn yard_degrees(file: &[u8], number: usize, position: usize, out: &mut [u8]) -> u64
    ensures value { result ≡ shown (degrees_laid (degrees_asked file.now number position)) out.old }
    ensures out_after { out.new ≡ leaves (degrees_laid (degrees_asked file.now number position)) out.old }
{
    exports::yard_degrees(file, number, position, out)
}

// The coordinate of the point of an index in the track of an index, in degrees too.
#[unsafe(no_mangle)]
pub extern "C" fn yard_point_degrees(file: &[u8], track: usize, index: usize, out: &mut [u8]) -> u64
    ensures value { result ≡ shown (degrees_laid (point_degrees_of file.now track index)) out.old }
    ensures out_after { out.new ≡ leaves (degrees_laid (point_degrees_of file.now track index)) out.old }
{
    exports::yard_point_degrees(file, track, index, out)
}

// The record that starts at a place.
#[unsafe(no_mangle)]
pub extern "C" fn yard_record(file: &[u8], offset: usize, out: &mut [u8]) -> u64
    ensures value { result ≡ shown (record_answer (record_of file.now offset)) out.old }
    ensures out_after { out.new ≡ leaves (record_answer (record_of file.now offset)) out.old }
{
    exports::yard_record(file, offset, out)
}

// Every route from a boundary. Where the counts have no room the list is made over a scrap, so that the words keep every byte and every
// other refusal comes first.
#[unsafe(no_mangle)]
pub extern "C" fn yard_routes(
    file: &[u8],
    start: usize,
    limit: usize,
    budget: usize,
    counts: &mut [u8],
    words: &mut [u8],
) -> u64
    ensures value { result ≡ shown (routes_answer (routes_asked file.now start limit budget (room_of words.old))) counts.old }
    ensures counts_after { counts.new ≡ leaves (routes_answer (routes_asked file.now start limit budget (room_of words.old))) counts.old }
    ensures words_after { words.new ≡ words_left counts.old words.old (left_asked file.now start limit budget words.old) }
{
    exports::yard_routes(file, start, limit, budget, counts, words)
}

// The same, by the second lister, for a host with a small stack.
#[unsafe(no_mangle)]
pub extern "C" fn yard_routes_flat(
    file: &[u8],
    start: usize,
    limit: usize,
    budget: usize,
    counts: &mut [u8],
    words: &mut [u8],
) -> u64
    ensures value { result ≡ shown (routes_answer (routes_asked file.now start limit budget (room_of words.old))) counts.old }
    ensures counts_after { counts.new ≡ leaves (routes_answer (routes_asked file.now start limit budget (room_of words.old))) counts.old }
    ensures words_after { words.new ≡ words_left counts.old words.old (left_asked file.now start limit budget words.old) }
{
    exports::yard_routes_flat(file, start, limit, budget, counts, words)
}

// What lies ahead of the object at an offset of the X.2 of a pair, which is left by the link of an index.
#[unsafe(no_mangle)]
pub extern "C" fn yard_ahead(
    first: &[u8],
    second: &[u8],
    offset: usize,
    link: usize,
    lies: &[u8],
    out: &mut [u8],
) -> u64
    ensures value { result ≡ ahead_shown (ahead.ahead_asked first.now second.now offset link lies.now (length out.old)) }
    ensures out_after { out.new ≡ ahead.left_asked first.now second.now offset link lies.now out.old }
{
    exports::yard_ahead(first, second, offset, link, lies, out)
}

// Opens a transfer of the file with an identity.
#[unsafe(no_mangle)]
pub extern "C" fn yard_load_open(
    state: &mut [u8],
    station: usize,
    kind: usize,
    version: usize,
    total: usize,
    trailer: usize,
    room: &[u8],
) -> u64
    ensures value { result ≡ open_shown state.old (identity_from station kind version total trailer) (length room.now) }
    ensures state_after { state.new ≡ open_leaves state.old (identity_from station kind version total trailer) (length room.now) }
{
    exports::yard_load_open(state, station, kind, version, total, trailer, room)
}

// Takes a piece.
#[unsafe(no_mangle)]
pub extern "C" fn yard_load_piece(state: &mut [u8], piece: &[u8], room: &mut [u8]) -> u64
    ensures value { result ≡ piece_shown state.old piece.now (length room.old) }
    ensures state_after { state.new ≡ piece_leaves state.old piece.now (length room.old) }
    ensures room_after { room.new ≡ piece_room (state_in state.old) piece.now room.old }
{
    exports::yard_load_piece(state, piece, room)
}

// Finishes a transfer.
#[unsafe(no_mangle)]
pub extern "C" fn yard_load_finish(state: &[u8], room: &[u8]) -> u64
    ensures { result ≡ finish_shown state.now room.now }
{
    exports::yard_load_finish(state, room)
}
