// What lies ahead, as the one number that is returned: why the list stops and how many objects it has stand above the answer's number, its file and
// its place.
ghost use Rattle.std.specs.Prelude.{◌≡◌};
ghost use Rattle.verdict.specs.Answers.{answer_number, answer_place};
ghost use Rattle.ahead.specs.Asked as asked;
ghost use Rattle.c_values.specs.Words.{answer_word};
ghost use Rattle.c_values.specs.Ahead.{stop_of, count_of, ahead_shown};

use crate::words::{OVER_BYTE, answer};
use ahead::{AheadFault, Sight};

// How many values six bytes have, and seven.
const OVER_SIX: usize = 0x1_0000_0000_0000;

const OVER_SEVEN: usize = 0x100_0000_0000_0000;

// The number of the stop: 0 in a refusal.
fn stop_of(a: Result<Sight, AheadFault>) -> usize
    ensures { result ≡ stop_of a }
{
    match a {
        Ok(sight) => {
            let stop = sight.stop;
            stop.number()
        }
        Err(_) => 0,
    }
}

// How many objects are listed: 0 in a refusal.
fn count_of(a: Result<Sight, AheadFault>) -> usize
    ensures { result ≡ count_of a }
{
    match a {
        Ok(sight) => sight.objects,
        Err(_) => 0,
    }
}

// The answer's number, its file and its place, as one number.
fn head_of(a: Result<Sight, AheadFault>) -> u64
    ensures { result ≡ answer_word (answer_number (asked.ahead_answer a)) (asked.ahead_file a) (answer_place (asked.ahead_answer a)) }
{
    match a {
        Ok(_) => answer(0, 0, 0),
        Err(fault) => answer(fault.number(), fault.file(), fault.place()),
    }
}

// The number that is returned for what lies ahead.
pub fn ahead_answer(a: Result<Sight, AheadFault>) -> u64
    ensures { result ≡ ahead_shown a }
{
    let low = head_of(a);
    let stop = stop_of(a) % OVER_BYTE;
    let objects = count_of(a) % OVER_BYTE;
    low + (OVER_SIX * stop + OVER_SEVEN * objects) as u64
}
