// Names (01, 'X.2, fixed application'; of objects by 02, ticket 10): the 8 bytes of an object's name and the 16 bytes of a station's name.
// `place` is the first byte of the name, `start` where its record starts. A byte past the end of the file counts as 0.
#![tactic(auto, unfolding(verdict::specs::Facts::first_fault))]

ghost use Rattle.std.specs.Prelude.{◌≡◌, [], ◌∷◌, ◌+◌, ◌*◌, ◌-◌, min, ◌≤◌, length};
ghost use Rattle.verdict.specs.Facts.{first_fault, test};
ghost use Rattle.names.specs.Names.{object_bytes, station_codes, byte_after, zeros, lead, Counted, code_count, station_bytes, station_name_length, is_code, codes, naming_of, name_at, object_name, object_name_fact, station_name_fact};
ghost use Rattle.names.specs.Written.{field_at};

use octets::byte_after;
use verdict::{Mark, Reason, Rule, fact};

// An object's name: how many bytes it has room for; the least of its bytes, which is a space and stands neither first nor last; the greatest.
const OBJECT_BYTES: usize = 8;

const SPACE: u8 = 0x20;

const GREATEST_BYTE: u8 = 0x7E;

// The least number of bytes of a name, by whether its user allows it to be empty.
pub const MAY_BE_EMPTY: usize = 0;

pub const NOT_EMPTY: usize = 1;

// A station's name: how many bytes and how many codes it has room for.
const STATION_BYTES: usize = 16;

const STATION_CODES: usize = 8;

// A code: its bytes, the range of the first, and the range of the second, in which there is a gap.
const CODE_BYTES: usize = 2;

const FIRST_LEAST: usize = 0x81;

const FIRST_GREATEST: usize = 0xFE;

const SECOND_LEAST: usize = 0x40;

const BEFORE_GAP: usize = 0x7E;

const AFTER_GAP: usize = 0x80;

const SECOND_GREATEST: usize = 0xFE;

// The name of an object in a file: where its first byte stands, and how many bytes it has, 0 for none.
#[derive(Clone, Copy)]
pub struct Name {
    pub place: usize,
    pub bytes: usize,
}

// How many codes the name of a station at a place has: those before the first that begins with a zero.
fn code_count(f: &[u8], place: usize) -> usize
    ensures { Counted (code_count f.now place) station_codes result }
{
    for n in 0..STATION_CODES {
        if byte_after(f, place, CODE_BYTES * n) == 0 {
            return n;
        }
    }
    STATION_CODES
}

// How many bytes the name of a station at a place has, without its closing zeros.
pub fn station_name_length(f: &[u8], place: usize) -> usize
    ensures { Counted (station_name_length f.now place) station_bytes result }
{
    CODE_BYTES * code_count(f, place)
}

// How many of so many bytes at a place lie inside the file.
fn inside(f: &[u8], place: usize, bytes: usize) -> usize
    ensures { result ≡ min bytes (length f.now - place) }
{
    bytes.min(f.len().saturating_sub(place))
}

// Whether each byte at a place, from one up to another, is 0x00.
fn zeros(f: &[u8], place: usize, from: usize, until: usize) -> bool
    ensures { result ≡ test (zeros f.now place from until) }
{
    let top = inside(f, place, until);
    for k in from..top {
        if f[place + k] != 0 {
            return false;
        }
    }
    true
}

// Whether two bytes are a code: the first 0x81 to 0xFE, the second 0x40 to 0x7E or 0x80 to 0xFE.
fn is_code(a: usize, b: usize) -> bool
    ensures { result ≡ test (is_code a b) }
{
    ((FIRST_LEAST <= a) & (a <= FIRST_GREATEST))
        & (((SECOND_LEAST <= b) & (b <= BEFORE_GAP)) | ((AFTER_GAP <= b) & (b <= SECOND_GREATEST)))
}

// Whether the first n pairs of bytes at a place are codes.
fn codes(f: &[u8], place: usize, n: usize) -> bool
    requires { n ≤ station_codes }
    ensures { result ≡ test (codes f.now place n) }
{
    let mut ok = true;
    for k in 0..n {
        let a = byte_after(f, place, CODE_BYTES * k);
        let b = byte_after(f, place, CODE_BYTES * k + 1);
        ok = ok & is_code(a, b);
    }
    ok
}

// The byte that stands k bytes after a place.
fn octet(f: &[u8], place: usize, k: usize) -> u8
    ensures { result ≡ byte_after f.now place k }
{
    byte_after(f, place, k) as u8
}

// The 8 bytes of a field that the file may end in: those past its end are 0.
fn cut_field(f: &[u8], place: usize) -> [u8; OBJECT_BYTES]
    ensures { result ≡ field_at f.now place }
{
    [
        octet(f, place, 0),
        octet(f, place, 1),
        octet(f, place, 2),
        octet(f, place, 3),
        octet(f, place, 4),
        octet(f, place, 5),
        octet(f, place, 6),
        octet(f, place, 7),
    ]
}

// The rule, on 8 bytes that lie inside the file: so many bytes 0x20 to 0x7E, neither the first nor the last of them 0x20, then only 0x00. It
// answers how many. One pass: a byte of the name has only such before it, and the first 0x00 does not follow a space.
fn spelt(f: &[u8], place: usize) -> Option<usize>
    requires { place + object_bytes ≤ length f.now }
    ensures { result ≡ naming_of f.now place }
{
    let first = f[place];
    let mut ok = true;
    let mut before = true;
    let mut spaced = false;
    let mut n = 0;
    for k in 0..OBJECT_BYTES {
        let b = f[place + k];
        let letter = (SPACE <= b) & (b <= GREATEST_BYTE);
        ok = ok & (((b == 0) & !spaced) | (letter & before));
        before = letter;
        spaced = b == SPACE;
        n = n + letter as usize;
    }
    if ok & ((first != SPACE) & !spaced) {
        return Some(n);
    }
    None
}

// What the 8 bytes at a place are: a name of so many bytes, or none.
pub fn name_in(f: &[u8], place: usize) -> Option<usize>
    ensures { result ≡ naming_of f.now place }
{
    if inside(f, place, OBJECT_BYTES) < OBJECT_BYTES {
        let field = cut_field(f, place);
        return spelt(&field, 0);
    }
    spelt(f, place)
}

// The name of an object at a place.
pub fn name_at(f: &[u8], place: usize) -> Name
    ensures { result ≡ name_at f.now place }
{
    let bytes = name_in(f, place).unwrap_or(0);
    Name { place, bytes }
}

// The 8 bytes at a place are an object's name of `least` or more bytes: MAY_BE_EMPTY or NOT_EMPTY.
pub fn is_name(f: &[u8], place: usize, least: usize) -> bool
    ensures { result ≡ test (object_name f.now place least) }
{
    match name_in(f, place) {
        Some(n) => least <= n,
        None => false,
    }
}

// The same, as a fact.
pub fn object_name(f: &[u8], start: usize, place: usize, least: usize) -> Result<(), Mark>
    ensures { result ≡ first_fault (object_name_fact f.now start place least ∷ []) }
{
    let ok = is_name(f, place, least);
    let rule = Rule::ObjectName(least);
    fact(ok, Reason::Field, start, place, OBJECT_BYTES, rule)
}

// The 16 bytes at a place are a station's name: one to eight codes of two bytes, then zeros.
pub fn station_name(f: &[u8], start: usize, place: usize) -> Result<(), Mark>
    ensures { result ≡ first_fault (station_name_fact f.now start place ∷ []) }
{
    let n = code_count(f, place);
    let coded = codes(f, place, n);
    let ended = zeros(f, place, CODE_BYTES * n, STATION_BYTES);
    let rule = Rule::StationName;
    fact(
        (1 <= n) & (coded & ended),
        Reason::Field,
        start,
        place,
        STATION_BYTES,
        rule,
    )
}
