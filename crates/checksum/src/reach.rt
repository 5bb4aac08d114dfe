// How many bytes are made few: what is left of them makes of an empty register what all of them make of the start value.
//
// The checksum is a remainder: the bits of the file are the terms of a polynomial, and the checksum is what dividing by the polynomial of
// 6.6 leaves of it. So whatever that polynomial divides can be added to the file, by exclusive or, and the checksum stays the same. It
// divides x^2728 + x^1208 + x^760 + x^336 + 1 (proofs, Sparse: gone), and these degrees are whole bytes: 341, 151, 95, 42 and 0. So a byte
// can be added to its own place, where nothing is left of it, if it is also added to the places 190, 246, 299 and 341 bytes after it: it is
// passed on. Once every byte but the last 341 has been passed on, only these are left, with all that was brought to them.
//
// Passing on a byte takes no table and nothing but exclusive or, and no byte waits for one that stands less than 190 places before it: the
// machine takes many at a time. The start value needs no rule of its own, since there are four bytes that make it of an empty register: they
// are passed on before the file.
ghost use Rattle.std.specs.Prelude.{◌≡◌, List, ℕ, ◌+◌, ◌≤◌, ◌<◌, length};
ghost use Rattle.checksum.specs.inner.Reach.{brought_at, passed, left, Holds, Passes, Few};

// How many places on a byte is added when it is passed on. The last of them is as far as it reaches.
const FIRST: usize = 190;

const SECOND: usize = 246;

const THIRD: usize = 299;

pub const REACH: usize = 341;

// The bytes that make the start value of an empty register.
const LEAD: [u8; 4] = [0x8F, 0x31, 0x17, 0xF5];

// How many bytes are passed on before the row is moved.
const BLOCK: usize = 2048;

// The row has the last REACH bytes that were passed on, the newest last, and room after them for those of a block.
const ROOM: usize = REACH + BLOCK;

// Where in the row those stand that bring something to the first byte of a block; the fourth is at the row's start.
const FROM_FIRST: usize = REACH - FIRST;

const FROM_SECOND: usize = REACH - SECOND;

const FROM_THIRD: usize = REACH - THIRD;

// What is brought to the byte at the place k of a block.
fn brought(row: &[u8; ROOM], k: usize) -> u8
    requires { k < 2048 }
    ensures { result ≡ brought_at row.now k }
{
    row[FROM_FIRST + k] ^ row[FROM_SECOND + k] ^ row[FROM_THIRD + k] ^ row[k]
}

// Passes on the bytes s, each with what is brought to it, and lays them in the row after those that were passed on before.
fn pass_on(row: &mut [u8; ROOM], s: &[u8])
    requires { length s.now ≤ 2048 }
    ensures { (ps : List ℕ) → Holds 341 ps row.old → Holds (341 + length s.now) (passed ps s.now) row.new }
{
    for (k, byte) in s.iter().enumerate() {
        row[REACH + k] = *byte ^ brought(row, k);
    }
}

// Moves the row: the last REACH bytes that were passed on, n places from its start, come to its start.
fn move_row(row: &mut [u8; ROOM], n: usize)
    requires { n ≤ 2048 }
    ensures { (ps : List ℕ) → Holds (341 + n) ps row.old → Holds 341 ps row.new }
{
    row.copy_within(n..n + REACH, 0);
}

// Passes on the bytes s, no more than a block, and moves the row.
fn pass_part(row: &mut [u8; ROOM], s: &[u8])
    requires { length s.now ≤ 2048 }
    ensures { Passes s.now row.old row.new }
{
    pass_on(row, s);
    move_row(row, s.len());
}

// Passes on the bytes s, however many, block by block.
fn pass_all(row: &mut [u8; ROOM], s: &[u8])
    ensures { Passes s.now row.old row.new }
{
    let (blocks, rest) = s.as_chunks::<BLOCK>();
    for block in blocks {
        pass_part(row, block);
    }
    pass_part(row, rest);
}

// The few bytes that are left: the last ones, s, each with what is brought to it. They are not passed on, so the row has nothing for them.
fn leave(row: &mut [u8; ROOM], s: &[u8], few: &mut [u8; REACH])
    requires { (length s.now ≡ 341) × (length few.old ≡ 341) }
    ensures { (ps : List ℕ) → Holds 341 ps row.old → few.new ≡ left ps s.now }
{
    for (k, byte) in s.iter().enumerate() {
        few[k] = *byte ^ brought(row, k);
        row[REACH + k] = 0;
    }
}

// The few bytes that are left of all the bytes s: they make of an empty register what s makes of the start value.
pub fn leave_few(s: &[u8], few: &mut [u8; REACH])
    requires { (341 ≤ length s.now) × (length few.old ≡ 341) }
    ensures { Few few.new s.now }
{
    let mut row = [0u8; ROOM];
    let lead = LEAD;
    let last = s.len() - REACH;
    pass_part(&mut row, &lead);
    pass_all(&mut row, &s[..last]);
    leave(&mut row, &s[last..], few);
}
