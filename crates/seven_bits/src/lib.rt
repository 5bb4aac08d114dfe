// Numbers in groups of seven bits, low group first, the top bit set on all groups but the last, shortest form only. Each number fits 32
// bits (02, ticket 6).
#![tactic(auto)]

ghost use Rattle.std.specs.Prelude.{◌≡◌, ◌+◌, ◌≤◌, ◌<◌, length};
ghost use Rattle.std.proofs.Math.Seq.{paste};
ghost use Rattle.seven_bits.specs.Numbers.{group_values, bad, found, joined, groups_at, number_at, groups_of, put_in, put_next};

use octets::byte_at;

// The first number that does not fit 32 bits.
pub const NUMBER_LIMIT: usize = 0x1_0000_0000;

// How many groups a number has at most.
pub const GROUPS_MOST: usize = 5;

// How many values a group has.
const GROUP_VALUES: usize = 128;

// The first number that the groups after the first may not make: with any first group the whole would not fit 32 bits.
const REST_LIMIT: usize = NUMBER_LIMIT / GROUP_VALUES;

// What is read at a place: a number, and the place behind its groups; where it is bad, 0 and the place itself.
#[derive(Clone, Copy)]
pub struct Number {
    pub good: bool,
    pub value: usize,
    pub next: usize,
}

// A bad number at a place.
fn bad_number(at: usize) -> Number
    ensures { result ≡ bad at }
{
    Number {
        good: false,
        value: 0,
        next: at,
    }
}

// A number, and the place behind its groups.
fn found_number(value: usize, next: usize) -> Number
    ensures { result ≡ found value next }
{
    Number {
        good: true,
        value,
        next,
    }
}

// The number that a first group and the groups after it make.
fn join(at: usize, low: usize, rest: Number) -> Number
    requires { low < group_values }
    ensures { result ≡ joined at low rest }
{
    let value = rest.value;
    if rest.good & ((0 < value) & (value < REST_LIMIT)) {
        found_number(low + GROUP_VALUES * value, rest.next)
    } else {
        bad_number(at)
    }
}

// The number at a place, of at most so many groups.
fn groups_at(s: &[u8], at: usize, left: usize) -> Number
    ensures { result ≡ groups_at left s.now at }
{
    if left == 0 {
        return bad_number(at);
    }
    if s.len() <= at {
        return bad_number(at);
    }
    let b = byte_at(s, at);
    if b < GROUP_VALUES {
        return found_number(b, at + 1);
    }
    let rest = groups_at(s, at + 1, left - 1);
    join(at, b - GROUP_VALUES, rest)
}

// The number at a place.
pub fn number_at(s: &[u8], at: usize) -> Number
    ensures { result ≡ number_at s.now at }
{
    groups_at(s, at, GROUPS_MOST)
}

// Writes the groups of a number from a place on, at most so many, for which there is room, and answers the place behind them.
fn put_groups(out: &mut [u8], at: usize, v: usize, left: usize) -> usize
    requires { at + left ≤ length out.old }
    ensures next { result ≡ at + length (groups_of left v) }
    ensures stored { out.new ≡ paste out.old at (groups_of left v) (length (groups_of left v)) }
{
    if left == 0 {
        return at;
    }
    if v < GROUP_VALUES {
        out[at] = v as u8;
        return at + 1;
    }
    out[at] = (GROUP_VALUES + v % GROUP_VALUES) as u8;
    put_groups(out, at + 1, v / GROUP_VALUES, left - 1)
}

// Writes a number from a place on where there is room for as many groups as a number may have, and answers the place behind it; else it
// writes nothing and answers the place.
pub fn put_number(out: &mut [u8], at: usize, v: usize) -> usize
    ensures next { result ≡ put_next out.old at v }
    ensures stored { out.new ≡ put_in out.old at v }
{
    if out.len().saturating_sub(at) < GROUPS_MOST {
        return at;
    }
    put_groups(out, at, v, GROUPS_MOST)
}
