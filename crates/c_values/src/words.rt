// Numbers as they cross the boundary: the one number that a question returns, and values as four bytes each.
#![tactic(auto, unfolding(crate::specs::Words::answer_word, crate::specs::Words::word_of))]

ghost use Rattle.std.specs.Prelude.{◌≡◌, ◌+◌, ◌≤◌, ◌*◌, pos, length};
ghost use Rattle.std.proofs.lemmas.List.Edits.{sets};
ghost use Rattle.verdict.specs.Reasons.{number_of, file_of};
ghost use Rattle.c_values.specs.Words.{answer_word, value_size, word_of, word_bytes, laid_bytes};
ghost use Rattle.c_values.specs.Shown.{words_shown, words_leave};

use verdict::{Fault, PairFault, Reason};

// How many values a byte, two bytes, three and four have.
pub const OVER_BYTE: usize = 0x100;

const OVER_TWO: usize = 0x1_0000;

pub const OVER_WORD: usize = 0x1_0000_0000;

// How many bytes a value has.
const VALUE_SIZE: usize = 4;

// How many bytes the counts of a list of routes have.
pub const COUNTS_SIZE: usize = 12;

// The number that is returned for an answer with a number, a file and a place.
pub fn answer(number: usize, file: usize, place: usize) -> u64
    ensures { result ≡ answer_word number file place }
{
    let low = number % OVER_BYTE;
    let middle = file % OVER_BYTE;
    let high = place % OVER_WORD;
    (low + OVER_BYTE * middle + OVER_TWO * high) as u64
}

// The number that is returned for a refusal about one file.
pub fn refused(fault: Fault) -> u64
    ensures { result ≡ answer_word (number_of fault.reason) 0 fault.place }
{
    answer(fault.number(), 0, fault.place)
}

// The number that is returned for a refusal about a pair.
pub fn pair_refused(p: PairFault) -> u64
    ensures { result ≡ answer_word (number_of p.fault.reason) (file_of p.file) p.fault.place }
{
    let file = p.file;
    let fault = p.fault;
    answer(fault.number(), file.number(), fault.place)
}

// A number as a value.
pub fn word(n: usize) -> u32
    ensures { result ≡ word_of (pos n) }
{
    (n % OVER_WORD) as u32
}

// A signed number as a value: a negative one in two's complement.
pub fn signed_word(z: i64) -> u32
    ensures { result ≡ word_of z }
{
    let n = z.unsigned_abs() as usize;
    if z >= 0 {
        return word(n);
    }
    let below = (n - 1) % OVER_WORD;
    (OVER_WORD - 1 - below) as u32
}

// Puts a value in the four bytes at a place, low byte first.
fn put_word(out: &mut [u8], at: usize, word: u32)
    requires { at + value_size ≤ length out.old }
    ensures { out.new ≡ sets out.old at (word_bytes word) }
{
    out[at..at + VALUE_SIZE].copy_from_slice(&word.to_le_bytes());
}

// Puts the values at the start of the output.
fn lay(words: &[u32], out: &mut [u8])
    requires { value_size * length words.now ≤ length out.old }
    ensures { out.new ≡ sets out.old 0 (laid_bytes words.now) }
{
    for (i, word) in words.iter().enumerate() {
        put_word(out, VALUE_SIZE * i, *word);
    }
}

// Answers with values: they are put at the start of the output, or refused with 15 where it is too short.
pub fn show(words: &[u32], out: &mut [u8]) -> u64
    ensures value { result ≡ words_shown words.now out.old }
    ensures out_after { out.new ≡ words_leave words.now out.old }
{
    if out.len() / VALUE_SIZE < words.len() {
        let reason = Reason::Room;
        return answer(reason.number(), 0, 0);
    }
    lay(words, out);
    answer(0, 0, 0)
}
