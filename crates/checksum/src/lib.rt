// The checksum of 6.6 (01, 'Bytes and checksum'). terms.rt has it as the page prints it, bit by bit. Here it goes sixteen bytes a turn, four
// bytes a step, by tables of what each byte makes of an empty register once some empty bytes have followed. Of a turn's bytes the first four
// meet the register, and twelve empty bytes follow them; the other twelve enter an empty register and need not wait for the first four.
// What both make, joined, is what the sixteen make. Of a long file only few bytes go so: reach.rt says how all others are taken away first.
#![tactic(auto)]

mod reach;
mod table;
mod terms;

ghost use Rattle.std.specs.Prelude.{◌≡◌, ℕ, ◌+◌, ◌≤◌, ◌<◌, length, take, slice_index};
ghost use Rattle.checksum.specs.Checksum.{byte_step, checksum_from, checksum_of, Checksum};
ghost use Rattle.checksum.specs.inner.Table.{word_of, empty_steps, RightTable, RightTables};

use reach::{REACH, leave_few};
use table::{BYTES, ENTRIES, FAR, NEAR};
use terms::{BYTE, START, checksum_of};

// The bits of two bytes, and of three.
const TWO_BYTES: u32 = 2 * BYTE;

const THREE_BYTES: u32 = 3 * BYTE;

// How many bytes enter in one step by four entries, and in one turn.
const STEP: usize = 4;

const TURN: usize = 16;

// From how many bytes on it takes less time to leave few of them first; measured.
const MANY: usize = 768;

// What a byte makes of an empty register once the empty bytes of a row of the table have followed: `row` more than those of its first row.
fn entry(table: &[u32; ENTRIES], row: usize, byte: usize) -> u32
    requires { (row < 4) × (byte < 256) }
    ensures { (n : ℕ) → RightTable n table.now → result ≡ empty_steps (n + row) (byte_step 0 byte) }
{
    table[BYTES * row + byte]
}

// What the register becomes when a byte enters, by the entry of what it meets.
fn byte_step(near: &[u32; ENTRIES], register: u32, byte: u8) -> u32
    requires { RightTable 0 near.now }
    ensures { result ≡ byte_step register byte }
{
    let met = (byte as u32) ^ (register >> THREE_BYTES);
    entry(near, 0, met as usize) ^ (register << BYTE)
}

// Four bytes as one number, the first byte highest.
// Stays (4): by `u32::from_be_bytes` 700 bytes take 9 in 100 longer: those that meet an empty register are then not read one by one.
fn word(four: &[u8; STEP]) -> u32
    ensures { result ≡ word_of (slice_index four.now 0) (slice_index four.now 1) (slice_index four.now 2) (slice_index four.now 3) }
{
    let [a, b, c, d] = *four;
    ((a as u32) << THREE_BYTES) + ((b as u32) << TWO_BYTES) + ((c as u32) << BYTE) + (d as u32)
}

// What the register becomes when four bytes enter, and then the empty bytes of the table's first row: each byte meets a byte of the
// register, and what they make together has an entry.
fn four_step(table: &[u32; ENTRIES], register: u32, four: &[u8; STEP]) -> u32
    ensures { (n : ℕ) → RightTable n table.now → result ≡ empty_steps n (checksum_from register four.now) }
{
    let met = (register ^ word(four)) as usize;
    let first = entry(table, 3, met >> THREE_BYTES);
    let second = entry(table, 2, (met >> TWO_BYTES) % BYTES);
    let third = entry(table, 1, (met >> BYTE) % BYTES);
    let fourth = entry(table, 0, met % BYTES);
    (first ^ second) ^ (third ^ fourth)
}

// What the register becomes when sixteen bytes enter. The last twelve enter an empty register, four after four; they come first here, since
// they need not wait for the register.
fn sixteen_step(
    near: &[u32; ENTRIES],
    far: &[u32; ENTRIES],
    register: u32,
    turn: &[u8; TURN],
) -> u32
    requires { RightTables near.now far.now }
    ensures { result ≡ checksum_from register turn.now }
{
    let (fours, _) = turn.as_chunks::<STEP>();
    let second = four_step(near, 0, &fours[1]);
    let third = four_step(near, second, &fours[2]);
    let fourth = four_step(near, third, &fours[3]);
    fourth ^ four_step(far, register, &fours[0])
}

// What the register becomes when the bytes s enter: turn after turn, then four after four, and then the rest, one by one.
fn by_table(near: &[u32; ENTRIES], far: &[u32; ENTRIES], register: u32, s: &[u8]) -> u32
    requires { RightTables near.now far.now }
    ensures { result ≡ checksum_from register s.now }
{
    let (turns, later) = s.as_chunks::<TURN>();
    let (fours, rest) = later.as_chunks::<STEP>();
    let turned = turns
        .iter()
        .fold(register, |r, turn| sixteen_step(near, far, r, turn));
    let stepped = fours
        .iter()
        .fold(turned, |r, four| four_step(near, r, four));
    rest.iter()
        .fold(stepped, |r, byte| byte_step(near, r, *byte))
}

// Lays the tables, and answers by them what the register becomes when the bytes s enter.
fn with_tables(register: u32, s: &[u8]) -> u32
    ensures { result ≡ checksum_from register s.now }
{
    let near = &NEAR;
    let far = &FAR;
    by_table(near, far, register, s)
}

// What the bytes s, many of them, make of the start value: what the few that are left of them make of an empty register.
fn by_reach(s: &[u8]) -> u32
    requires { 341 ≤ length s.now }
    ensures { result ≡ checksum_of s.now }
{
    let mut few = [0u8; REACH];
    leave_few(s, &mut few);
    with_tables(0, &few)
}

// The checksum of the bytes s. Fewer than a turn enter bit by bit: no table is laid for them. Of many, few are left first.
pub fn of(s: &[u8]) -> usize
    ensures { Checksum s.now result }
{
    if s.len() < TURN {
        return checksum_of(s) as usize;
    }
    if s.len() < MANY {
        return with_tables(START, s) as usize;
    }
    by_reach(s) as usize
}

// The checksum of the first n bytes of s; of all of them where n is over their number.
pub fn of_first(s: &[u8], n: usize) -> usize
    ensures { Checksum (take n s.now) result }
{
    of(&s[..n.min(s.len())])
}
