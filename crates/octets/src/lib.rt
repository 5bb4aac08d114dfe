// Numbers from bytes, little-endian, at a place of a slice (01, 'Bytes and checksum'). A byte past the end counts as 0, so that every
// function answers for every place and reads no byte outside the slice.
#![tactic(auto)]

ghost use Rattle.std.specs.Prelude.{◌≡◌, ◌+◌, ◌-◌, min, ◌≤◌, ◌<◌, length, nat_abs};
ghost use Rattle.octets.specs.Octets.{bytes_of, half_of, Is, IsSigned, signed, signed_at};

// How many bytes a number has.
#[derive(Clone, Copy)]
pub enum Width {
    One,
    Two,
    Three,
    Four,
}

impl Width {
    pub fn bytes(self) -> usize
        ensures { result ≡ bytes_of self }
    {
        match self {
            Width::One => 1,
            Width::Two => 2,
            Width::Three => 3,
            Width::Four => 4,
        }
    }

    // The first number of the width that counts as negative where the number is signed.
    pub fn half(self) -> usize
        ensures { result ≡ half_of (bytes_of self) }
    {
        match self {
            Width::One => 0x80,
            Width::Two => 0x8000,
            Width::Three => 0x80_0000,
            Width::Four => 0x8000_0000,
        }
    }
}

// At how many places of the slice a byte stands that has so many bytes after it inside the slice.
fn places(s: &[u8], after: usize) -> usize
    ensures { result ≡ length s.now - after }
{
    s.len().saturating_sub(after)
}

// The byte at a place inside the slice.
// Stays (2): by one function over a count `N` of bytes, in four forms that were tried, the verdict of an X.1 of 65,262 bytes takes 5 to 30 in 100 longer.
fn byte_inside(s: &[u8], at: usize) -> usize
    requires { at < length s.now }
    ensures { Is 1 s.now at result }
{
    s[at] as usize
}

// The number of two bytes that lie inside the slice.
// Stays (2): by one function over a count of bytes it is slower, as said at `byte_inside`.
fn two_inside(s: &[u8], at: usize) -> usize
    requires { at + 1 < length s.now }
    ensures { Is 2 s.now at result }
{
    byte_inside(s, at) + 256 * byte_inside(s, at + 1)
}

// The number of three bytes that lie inside the slice.
// Stays (2): by one function over a count of bytes it is slower, as said at `byte_inside`.
fn three_inside(s: &[u8], at: usize) -> usize
    requires { at + 2 < length s.now }
    ensures { Is 3 s.now at result }
{
    byte_inside(s, at) + 256 * two_inside(s, at + 1)
}

// The number of four bytes that lie inside the slice.
// Stays (2): by one function over a count of bytes it is slower, as said at `byte_inside`.
fn four_inside(s: &[u8], at: usize) -> usize
    requires { at + 3 < length s.now }
    ensures { Is 4 s.now at result }
{
    byte_inside(s, at) + 256 * three_inside(s, at + 1)
}

// The byte at a place.
// Stays (2): by one function over a count of bytes it is slower, as said at `byte_inside`.
pub fn byte_at(s: &[u8], at: usize) -> usize
    ensures { Is 1 s.now at result }
{
    if at < s.len() {
        return byte_inside(s, at);
    }
    0
}

// The byte that stands k bytes after a place.
pub fn byte_after(s: &[u8], at: usize, k: usize) -> usize
    ensures { Is 1 s.now (at + k) result }
{
    if s.len() <= at {
        return 0;
    }
    if s.len() - at <= k {
        return 0;
    }
    byte_inside(s, at + k)
}

// The number of two bytes. Where the last byte lies past the end, the number is that of the bytes before it; so with more bytes.
// Stays (2): by one function over a count of bytes it is slower, as said at `byte_inside`.
pub fn u16_at(s: &[u8], at: usize) -> usize
    ensures { Is 2 s.now at result }
{
    if at < places(s, 1) {
        return two_inside(s, at);
    }
    byte_at(s, at)
}

// The number of three bytes.
// Stays (2): by one function over a count of bytes it is slower, as said at `byte_inside`.
pub fn u24_at(s: &[u8], at: usize) -> usize
    ensures { Is 3 s.now at result }
{
    if at < places(s, 2) {
        return three_inside(s, at);
    }
    u16_at(s, at)
}

// The number of four bytes.
// Stays (2): by one function over a count of bytes it is slower, as said at `byte_inside`.
pub fn u32_at(s: &[u8], at: usize) -> usize
    ensures { Is 4 s.now at result }
{
    if at < places(s, 3) {
        return four_inside(s, at);
    }
    u24_at(s, at)
}

// The number of a width.
pub fn num_at(s: &[u8], at: usize, w: Width) -> usize
    ensures { Is (bytes_of w) s.now at result }
{
    match w {
        Width::One => byte_at(s, at),
        Width::Two => u16_at(s, at),
        Width::Three => u24_at(s, at),
        Width::Four => u32_at(s, at),
    }
}

// n in two's complement, where half is the first number that counts as negative.
fn signed_of(n: usize, half: usize) -> i64
    requires { (n < half + half) × (half ≤ 2147483648) }
    ensures { result ≡ signed half n }
{
    if n < half {
        n as i64
    } else {
        -1 - (half + half - 1 - n) as i64
    }
}

// How far n in two's complement is from 0.
fn distance_of(n: usize, half: usize) -> usize
    requires { (n < half + half) × (half ≤ 2147483648) }
    ensures { result ≡ nat_abs (signed half n) }
{
    if n < half { n } else { half + half - n }
}

// The signed number of a width.
pub fn signed_at(s: &[u8], at: usize, w: Width) -> i64
    ensures { IsSigned (bytes_of w) s.now at result }
{
    signed_of(num_at(s, at, w), w.half())
}

// The signed number of two bytes.
pub fn i16_at(s: &[u8], at: usize) -> i64
    ensures { IsSigned 2 s.now at result }
{
    signed_at(s, at, Width::Two)
}

// The signed number of three bytes.
pub fn i24_at(s: &[u8], at: usize) -> i64
    ensures { IsSigned 3 s.now at result }
{
    signed_at(s, at, Width::Three)
}

// The signed number of four bytes.
pub fn i32_at(s: &[u8], at: usize) -> i64
    ensures { IsSigned 4 s.now at result }
{
    signed_at(s, at, Width::Four)
}

// How far the signed number of a width is from 0.
pub fn distance_at(s: &[u8], at: usize, w: Width) -> usize
    ensures { result ≡ nat_abs (signed_at (bytes_of w) s.now at) }
{
    distance_of(num_at(s, at, w), w.half())
}

// How far a signed number is from 0.
pub fn distance(z: i64) -> usize
    ensures { result ≡ nat_abs z }
{
    z.unsigned_abs() as usize
}

// The smaller of two numbers.
pub fn least(a: usize, b: usize) -> usize
    ensures { result ≡ min a b }
{
    a.min(b)
}

// a without b, and 0 where b is greater.
pub fn less(a: usize, b: usize) -> usize
    ensures { result ≡ a - b }
{
    a.saturating_sub(b)
}
