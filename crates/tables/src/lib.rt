// The fields of a record (01, 'Fields'; the standard's tables 2, 3 and 6 to 12). A field is where it stands in its record and how many
// bytes it has. For each sort of values that a row of a table allows there are two functions here: one tests the field, and one is the
// verdict so far, then the facts of that row. A check tests a record as a whole, and goes fact by fact only where that fails. `at` is
// where the record starts, a number of 32 bits, so that a field's place never overflows and nothing is asked of a caller.
#![tactic(auto, unfolding(verdict::specs::Facts::first_fault))]

ghost use Rattle.std.specs.Prelude.{◌≡◌, [], ◌∷◌, ◌+◌, ◌/◌, ◌%◌, nat_abs};
ghost use Rattle.octets.specs.Octets.{bytes_of, num_at, signed_at, Is, IsSigned};
ghost use Rattle.verdict.specs.Facts.{same, at_most, test, alone, first_fault};
ghost use Rattle.rules.specs.Rules.{lies_between, is_among_four, is_among_five, is_number, between};
ghost use Rattle.names.specs.Names.{object_bytes, object_name, name_at};
ghost use Rattle.tables.specs.Rows.{field_mark, value_facts};
ghost use Rattle.tables.specs.Table as table;

use names::{Name, is_name, name_at, object_name};
use octets::{Width, distance_at, num_at, signed_at};
use rules::{quotient, rest};
use verdict::{Mark, Reason, Rule, fact};

// A number's field: its place in the record, and its width.
#[derive(Clone, Copy)]
pub struct Field(pub u8, pub Width);

// The field of an object's name, which has 8 bytes: its place in the record.
#[derive(Clone, Copy)]
pub struct NameField(pub u8);

// Some bits of a byte: the byte divided by the first, modulo the second.
#[derive(Clone, Copy)]
pub struct Bits(pub usize, pub usize);

// ---- what stands in a field

// Where a field stands.
pub fn place_of(at: u32, k: Field) -> usize
    ensures { result ≡ at + k.0 }
{
    at as usize + k.0 as usize
}

// Where a name's field stands.
pub fn name_place(at: u32, k: NameField) -> usize
    ensures { result ≡ at + k.0 }
{
    at as usize + k.0 as usize
}

// The number of a field.
pub fn number_of(f: &[u8], at: u32, k: Field) -> usize
    ensures { Is (bytes_of k.1) f.now (at + k.0) result }
{
    let width = k.1;
    num_at(f, place_of(at, k), width)
}

// The signed number of a field.
pub fn signed_of(f: &[u8], at: u32, k: Field) -> i64
    ensures { IsSigned (bytes_of k.1) f.now (at + k.0) result }
{
    let width = k.1;
    signed_at(f, place_of(at, k), width)
}

// The name of a field: its place, and how many bytes it has.
pub fn name_of(f: &[u8], at: u32, k: NameField) -> Name
    ensures { result ≡ name_at f.now (at + k.0) }
{
    name_at(f, name_place(at, k))
}

// Some bits of a number, as a number.
pub fn bits_of(x: usize, b: Bits) -> usize
    ensures { result ≡ x / b.0 % b.1 }
{
    rest(quotient(x, b.0), b.1)
}

// ---- a rule of a field, for another reason than 5

// The field is this number.
pub fn number_is(f: &[u8], reason: Reason, at: u32, k: Field, x: usize) -> Result<(), Mark>
    ensures { result ≡ first_fault (is_number reason f.now at (at + k.0) k.1 x ∷ []) }
{
    let width = k.1;
    rules::is_number(f, reason, at as usize, place_of(at, k), width, x)
}

// The field lies between two numbers.
pub fn number_between(
    f: &[u8],
    reason: Reason,
    at: u32,
    k: Field,
    low: usize,
    high: usize,
) -> Result<(), Mark>
    ensures { result ≡ first_fault (between reason f.now at (at + k.0) k.1 low high ∷ []) }
{
    let width = k.1;
    rules::between(f, reason, at as usize, place_of(at, k), width, low, high)
}

// ---- what may stand in it: whether it does

// The field is this number.
pub fn equals(f: &[u8], at: u32, k: Field, x: usize) -> bool
    ensures { result ≡ test (same (num_at (bytes_of k.1) f.now (at + k.0)) x) }
{
    number_of(f, at, k) == x
}

// The field lies between two numbers.
pub fn lies_between(f: &[u8], at: u32, k: Field, low: usize, high: usize) -> bool
    ensures { result ≡ test (lies_between low high (num_at (bytes_of k.1) f.now (at + k.0))) }
{
    let n = number_of(f, at, k);
    (low <= n) & (n <= high)
}

// The signed number of the field is at most so far from 0.
pub fn lies_within(f: &[u8], at: u32, k: Field, limit: usize) -> bool
    ensures { result ≡ test (at_most (nat_abs (signed_at (bytes_of k.1) f.now (at + k.0))) limit) }
{
    let width = k.1;
    distance_at(f, place_of(at, k), width) <= limit
}

// The field is one of four numbers.
// Stays (2): `Rule::AmongFour` and `::AmongFive`, of which `says` and the theorems of true reasons speak, tell four numbers and five, so that the tests take as many.
pub fn is_among_four(f: &[u8], at: u32, k: Field, a: usize, b: usize, c: usize, d: usize) -> bool
    ensures { result ≡ test (is_among_four a b c d (num_at (bytes_of k.1) f.now (at + k.0))) }
{
    let n = number_of(f, at, k);
    (n == a) | ((n == b) | ((n == c) | (n == d)))
}

// The field is one of five numbers.
pub fn is_among_five(
    f: &[u8],
    at: u32,
    k: Field,
    a: usize,
    b: usize,
    c: usize,
    d: usize,
    e: usize,
) -> bool
    ensures { result ≡ test (is_among_five a b c d e (num_at (bytes_of k.1) f.now (at + k.0))) }
{
    let n = number_of(f, at, k);
    (n == a) | ((n == b) | ((n == c) | ((n == d) | (n == e))))
}

// Some bits of the field, as a number, lie between two numbers.
pub fn has_part(f: &[u8], at: u32, k: Field, b: Bits, low: usize, high: usize) -> bool
    ensures { result ≡ test (lies_between low high (num_at (bytes_of k.1) f.now (at + k.0) / b.0 % b.1)) }
{
    let n = bits_of(number_of(f, at, k), b);
    (low <= n) & (n <= high)
}

// The field is an object's name of at least so many bytes.
pub fn has_name(f: &[u8], at: u32, k: NameField, least: usize) -> bool
    ensures { result ≡ test (object_name f.now (at + k.0) least) }
{
    is_name(f, name_place(at, k), least)
}

// ---- the same, as a fact

// The verdict so far, then one rule of the field.
fn ask(ok: bool, at: u32, k: Field, rule: Rule) -> Result<(), Mark>
    ensures { result ≡ alone ok (field_mark at k.0 (bytes_of k.1) rule) }
{
    let width = k.1;
    fact(
        ok,
        Reason::Field,
        at as usize,
        place_of(at, k),
        width.bytes(),
        rule,
    )
}

// The field is this number.
pub fn exactly(f: &[u8], at: u32, k: Field, x: usize) -> Result<(), Mark>
    ensures { result ≡ first_fault (value_facts f.now at k.0 (bytes_of k.1) (table.exactly x)) }
{
    ask(equals(f, at, k, x), at, k, Rule::Is(x))
}

// The field lies between two numbers.
pub fn between(f: &[u8], at: u32, k: Field, low: usize, high: usize) -> Result<(), Mark>
    ensures { result ≡ first_fault (value_facts f.now at k.0 (bytes_of k.1) (table.between low high)) }
{
    let ok = lies_between(f, at, k, low, high);
    ask(ok, at, k, Rule::Between(low, high))
}

// The signed number of the field is at most so far from 0.
pub fn within(f: &[u8], at: u32, k: Field, limit: usize) -> Result<(), Mark>
    ensures { result ≡ first_fault (value_facts f.now at k.0 (bytes_of k.1) (table.within limit)) }
{
    let ok = lies_within(f, at, k, limit);
    ask(ok, at, k, Rule::Within(limit))
}

// The field is one of four numbers.
pub fn among_four(
    f: &[u8],
    at: u32,
    k: Field,
    a: usize,
    b: usize,
    c: usize,
    d: usize,
) -> Result<(), Mark>
    ensures { result ≡ first_fault (value_facts f.now at k.0 (bytes_of k.1) (table.among_four a b c d)) }
{
    let ok = is_among_four(f, at, k, a, b, c, d);
    ask(ok, at, k, Rule::AmongFour(a, b, c, d))
}

// The field is one of five numbers.
pub fn among_five(
    f: &[u8],
    at: u32,
    k: Field,
    a: usize,
    b: usize,
    c: usize,
    d: usize,
    e: usize,
) -> Result<(), Mark>
    ensures { result ≡ first_fault (value_facts f.now at k.0 (bytes_of k.1) (table.among_five a b c d e)) }
{
    let ok = is_among_five(f, at, k, a, b, c, d, e);
    ask(ok, at, k, Rule::AmongFive(a, b, c, d, e))
}

// Some bits of the field, as a number, lie between two numbers.
pub fn part(f: &[u8], at: u32, k: Field, b: Bits, low: usize, high: usize) -> Result<(), Mark>
    ensures { result ≡ first_fault (value_facts f.now at k.0 (bytes_of k.1) (table.parts (table.bits b.0 b.1 low high ∷ []))) }
{
    let ok = has_part(f, at, k, b, low, high);
    ask(ok, at, k, Rule::Part(b.0, b.1, low, high))
}

// The field is an object's name of at least so many bytes.
pub fn named(f: &[u8], at: u32, k: NameField, least: usize) -> Result<(), Mark>
    ensures { result ≡ first_fault (value_facts f.now at k.0 object_bytes (table.named least)) }
{
    object_name(f, at as usize, name_place(at, k), least)
}
