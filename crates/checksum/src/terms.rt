// The checksum as the standard's page prints it, 6.6 (01, 'Bytes and checksum'), to be laid beside the page: the twelve terms, the start
// value, and how the bytes enter, bit by bit. Fewer bytes than a turn of lib.rt has enter so; with more, tables save steps, and it is proved
// that they make what this makes.
ghost use Rattle.std.specs.Prelude.{◌≡◌, ◌<◌};
ghost use Rattle.checksum.specs.Checksum.{step, bit_step, byte_step, checksum_from, checksum_of};

// The terms of 6.6, in the page's order: each is a one at the place of its degree.
const X31: u32 = 1 << 31;

const X30: u32 = 1 << 30;

const X28: u32 = 1 << 28;

const X25: u32 = 1 << 25;

const X19: u32 = 1 << 19;

const X18: u32 = 1 << 18;

const X16: u32 = 1 << 16;

const X15: u32 = 1 << 15;

const X11: u32 = 1 << 11;

const X9: u32 = 1 << 9;

const X7: u32 = 1 << 7;

const X0: u32 = 1 << 0;

// What the page prints, the sum of the terms. A term of degree 32 is understood above them: it is what leaves the register at its high end.
pub const TERMS: u32 = X31 + X30 + X28 + X25 + X19 + X18 + X16 + X15 + X11 + X9 + X7 + X0;

// The start value.
pub const START: u32 = 0xFFFF_FFFF;

// The register's bits, as many as the degree of the understood term, and the place of the bit at the high end.
const WIDTH: u32 = 32;

const HIGH_END: u32 = WIDTH - 1;

// A byte's bits.
pub const BYTE: u32 = 8;

// The register moves up one place; where a one leaves it at the high end, the terms are taken off.
fn step(register: u32) -> u32
    ensures { result ≡ step register }
{
    let leaves = register >> HIGH_END;
    (leaves * TERMS) ^ (register << 1)
}

// A bit enters at the high end.
fn bit_step(register: u32, bit: u32) -> u32
    requires { bit < 2 }
    ensures { result ≡ bit_step register bit }
{
    step((bit << HIGH_END) ^ register)
}

// A byte enters, high bit first.
fn byte_step(register: u32, byte: u8) -> u32
    ensures { result ≡ byte_step register byte }
{
    let mut stepped = register;
    for place in (0..BYTE).rev() {
        stepped = bit_step(stepped, ((byte as u32) >> place) % 2);
    }
    stepped
}

// The bytes enter, one after the other.
fn checksum_from(register: u32, s: &[u8]) -> u32
    ensures { result ≡ checksum_from register s.now }
{
    s.iter()
        .fold(register, |stepped, byte| byte_step(stepped, *byte))
}

// What the bytes make of the start value, with no final change.
pub fn checksum_of(s: &[u8]) -> u32
    ensures { result ≡ checksum_of s.now }
{
    checksum_from(START, s)
}
