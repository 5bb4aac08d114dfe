// A line of the engineer's plan (docs/PLAN.md): what it says, by the words before its comment. A line that is a route has the offsets of its objects.
#![tactic(auto)]

ghost use Rattle.std.specs.Prelude.{◌≡◌, true, ◌++◌, ◌≤◌, length, drop};
ghost use Rattle.std.specs.Iterator.{YieldsFirstRef, at_most};
ghost use Rattle.plan_lines.specs.Lines.{is_blank, before, word, words_in, offset_of, all_offsets, offsets_of, is_from, count_of, from_by, route_by, line_by, line_of, left_by};

use decimal::number_in;

// The highest offset, and the least and the highest number of objects that a route has.
pub const OFFSET_MOST: u32 = 65535;

pub const ROUTE_LEAST: usize = 2;

pub const ROUTE_MOST: usize = 512;

// What starts a comment, and what parts words.
const COMMENT: u8 = b'#';

const SPACE: u8 = 0x20;

const TAB: u8 = 0x09;

const CARRIAGE_RETURN: u8 = 0x0D;

// The word that a start stands after.
const FROM: &[u8] = b"from";

// What a line says that is not wrong.
#[derive(Clone, Copy)]
pub enum Line {
    // nothing
    Empty,
    // `from`: the routes below it are from this start
    From(u16),
    // a route of so many offsets
    Route(usize),
}

// What is wrong with a line.
#[derive(Clone, Copy)]
pub enum Slip {
    // `from` without one offset after it: it sets no start
    From,
    // a word that is no offset
    Word,
    // too few offsets for a route
    Few,
    // too many offsets for a route
    Many,
    // by the lines above it: the route starts elsewhere than where their last `from` says
    Elsewhere,
    // the route stands in one of them
    Again,
    // there is no room for the route beside theirs
    NoRoom,
}

// The words of a text, one after the other.
#[derive(Drop)]
struct Words<'a>(&'a [u8]);

impl<'a> Iterator for Words<'a> {
    type Item = &'a [u8];

    ghost next_gives = { YieldsFirstRef (λ s. words_in s.0.now) };

    ghost remaining = { λ s. at_most (length s.0.now) };

    fn next(&mut self) -> Option<&'a [u8]> {
        let start = self.0.iter().position(|c| !is_blank(*c))?;
        let text = &self.0[start..];
        let (word, rest) = text.split_at(word_length(text));
        self.0 = rest;
        Some(word)
    }
}

// Whether a byte parts words.
fn is_blank(c: u8) -> bool
    ensures { result ≡ is_blank c }
{
    (c == SPACE) | ((c == TAB) | (c == CARRIAGE_RETURN))
}

// How many bytes of a text stand before a mark, as a comment's in a line, or a line's end in a plan; all where it has none.
pub fn length_before(text: &[u8], mark: u8) -> usize
    ensures value { result ≡ length (before mark text.now) }
    ensures upper_bound { result ≤ length text.now }
{
    text.iter().position(|c| *c == mark).unwrap_or(text.len())
}

// How many bytes the word has that a text begins with; 0 where it begins with a blank.
fn word_length(text: &[u8]) -> usize
    ensures value { result ≡ length (word text.now) }
    ensures upper_bound { result ≤ length text.now }
{
    text.iter().position(|c| is_blank(*c)).unwrap_or(text.len())
}

// The offset that a word is.
fn offset(word: &[u8]) -> Option<u16>
    ensures { result ≡ offset_of word.now }
{
    u16::try_from(number_in(word, OFFSET_MOST)).ok()
}

// How many offsets a text has, where all of its words are offsets.
fn counted(text: &[u8]) -> Option<usize>
    ensures { result ≡ count_of (words_in text.now) }
{
    let mut count = 0;
    for word in Words(text) {
        offset(word)?;
        count += 1;
    }
    Some(count)
}

// What a line says that begins with `from`, by the words after it.
fn from_line(words: Words<'_>) -> Result<Line, Slip>
    ensures { result ≡ from_by (words_in words.entry.0.now) }
{
    let mut words = words;
    let word = words.next().ok_or(Slip::From)?;
    let start = offset(word).ok_or(Slip::From)?;
    match words.next() {
        None => Ok(Line::From(start)),
        Some(_) => Err(Slip::From),
    }
}

// What a line of words says that does not begin with `from`.
fn route_line(text: &[u8]) -> Result<Line, Slip>
    ensures { result ≡ route_by (words_in text.now) }
{
    match counted(text) {
        None => Err(Slip::Word),
        Some(0) => Ok(Line::Empty),
        Some(n) if n < ROUTE_LEAST => Err(Slip::Few),
        Some(n) if ROUTE_MOST < n => Err(Slip::Many),
        Some(n) => Ok(Line::Route(n)),
    }
}

// Stores the offsets that the words of a text are. There is room for them.
fn store(text: &[u8], out: &mut [u16])
    requires text_value { all_offsets (words_in text.now) ≡ true }
    requires text_in_bounds { length (words_in text.now) ≤ length out.old }
    ensures { out.new ≡ offsets_of (words_in text.now) ++ drop (length (words_in text.now)) out.old }
{
    for (k, word) in Words(text).enumerate() {
        out[k] = offset(word).unwrap_or(0);
    }
}

// What a line says, without its comment.
fn said_line(text: &[u8]) -> Result<Line, Slip>
    ensures { result ≡ line_by (words_in text.now) }
{
    let mut words = Words(text);
    match words.next() {
        Some(word) if word == FROM => from_line(words),
        _ => route_line(text),
    }
}

// What a line says. Where it is a route for which there is room, its offsets are put in front of `out`.
pub fn read(line: &[u8], out: &mut [u16]) -> Result<Line, Slip>
    ensures value { result ≡ line_of line.now }
    ensures out_after { out.new ≡ left_by line.now out.old }
{
    let text = &line[..length_before(line, COMMENT)];
    let says = said_line(text)?;
    if let Line::Route(n) = says {
        if n <= out.len() {
            store(text, out);
        }
    }
    Ok(says)
}
