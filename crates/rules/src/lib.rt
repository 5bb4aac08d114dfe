// The shapes of rules (01, 'Verdicts and their order'). One function for each shape that both files have: the verdict so far, then the
// one fact that the constructor of the same name in specs/ makes. `start` is where the record starts, `place` the byte place that a
// refusal reports.
#![tactic(auto, unfolding(verdict::specs::Facts::first_fault))]

ghost use Rattle.std.specs.Prelude.{◌≡◌, [], ◌∷◌, ◌/◌, ◌%◌};
ghost use Rattle.verdict.specs.Facts.{first_fault};
ghost use Rattle.rules.specs.Rules.{length_between, is_number, between, fits, whole, ends_at, zero_at, same_as, above};

use octets::{Width, num_at};
use verdict::{Mark, Reason, Rule, fact};

// The file's length lies between two numbers.
pub fn length_between(f: &[u8], low: usize, high: usize) -> Result<(), Mark>
    ensures { result ≡ first_fault (length_between f.now low high ∷ []) }
{
    let n = f.len();
    let rule = Rule::LengthBetween(low, high);
    fact((low <= n) & (n <= high), Reason::Length, 0, 0, 0, rule)
}

// The number at a place is this one.
pub fn is_number(
    f: &[u8],
    reason: Reason,
    start: usize,
    place: usize,
    w: Width,
    x: usize,
) -> Result<(), Mark>
    ensures { result ≡ first_fault (is_number reason f.now start place w x ∷ []) }
{
    let n = num_at(f, place, w);
    let width = w.bytes();
    let rule = Rule::Is(x);
    fact(n == x, reason, start, place, width, rule)
}

// The number at a place lies between two numbers.
pub fn between(
    f: &[u8],
    reason: Reason,
    start: usize,
    place: usize,
    w: Width,
    low: usize,
    high: usize,
) -> Result<(), Mark>
    ensures { result ≡ first_fault (between reason f.now start place w low high ∷ []) }
{
    let n = num_at(f, place, w);
    let width = w.bytes();
    let rule = Rule::Between(low, high);
    fact((low <= n) & (n <= high), reason, start, place, width, rule)
}

// x divided by d, and by 0 it is 0.
pub fn quotient(x: usize, d: usize) -> usize
    ensures { result ≡ x / d }
{
    x.checked_div(d).unwrap_or(0)
}

// What x divided by d leaves, and by 0 it leaves x.
pub fn rest(x: usize, d: usize) -> usize
    ensures { result ≡ x % d }
{
    x.checked_rem(d).unwrap_or(x)
}

// What ends at `reach`, which the field `from` tells, fits into a room that ends at `room`, which is `other` or the number there.
pub fn fits(
    start: usize,
    place: usize,
    width: usize,
    reach: usize,
    from: usize,
    room: usize,
    other: usize,
) -> Result<(), Mark>
    ensures { result ≡ first_fault (fits start place width reach from room other ∷ []) }
{
    let rule = Rule::Fits(reach, from, room, other);
    fact(reach <= room, Reason::Layout, start, place, width, rule)
}

// So many bytes, between what a place tells and what `other` does, are whole records of a size.
pub fn whole(
    start: usize,
    place: usize,
    width: usize,
    bytes: usize,
    size: usize,
    other: usize,
) -> Result<(), Mark>
    ensures { result ≡ first_fault (whole start place width bytes size other ∷ []) }
{
    let left = rest(bytes, size);
    let rule = Rule::Whole(bytes, size, other);
    fact(left == 0, Reason::Layout, start, place, width, rule)
}

// What stops at a place stops at the end that is due.
pub fn ends_at(start: usize, place: usize, end: usize) -> Result<(), Mark>
    ensures { result ≡ first_fault (ends_at start place end ∷ []) }
{
    let rule = Rule::EndsAt(end);
    fact(place == end, Reason::Layout, start, place, 0, rule)
}

// The number of a field is 0.
pub fn zero_at(f: &[u8], start: usize, place: usize, w: Width, field: usize) -> Result<(), Mark>
    ensures { result ≡ first_fault (zero_at f.now start place w field ∷ []) }
{
    let n = num_at(f, field, w);
    let rule = Rule::Zero(field, w.bytes());
    fact(n == 0, Reason::Agreement, start, place, 0, rule)
}

// The number of a field is that of another field.
pub fn same_as(
    f: &[u8],
    start: usize,
    place: usize,
    w: Width,
    field: usize,
    other: usize,
) -> Result<(), Mark>
    ensures { result ≡ first_fault (same_as f.now start place w field other ∷ []) }
{
    let n = num_at(f, field, w);
    let m = num_at(f, other, w);
    let rule = Rule::SameAs(field, other, w.bytes());
    fact(n == m, Reason::Agreement, start, place, 0, rule)
}

// The number of a field is above that of another field.
pub fn above(
    f: &[u8],
    start: usize,
    place: usize,
    w: Width,
    field: usize,
    other: usize,
) -> Result<(), Mark>
    ensures { result ≡ first_fault (above f.now start place w field other ∷ []) }
{
    let n = num_at(f, field, w);
    let m = num_at(f, other, w);
    let rule = Rule::Above(field, other, w.bytes());
    fact(m < n, Reason::Agreement, start, place, 0, rule)
}
