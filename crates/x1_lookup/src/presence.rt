// The track numbers that are present in an X.1 as four words of 64 bits, filled in once, and a track's entry by the count of present numbers
// below its own (02, ticket 7).
ghost use Rattle.std.specs.Prelude.{◌≡◌, ◌<◌, ◌*◌, ◌/◌, ◌%◌, ◌^◌};
ghost use Rattle.std.specs.Int.Count.{ones};
ghost use Rattle.x1_lookup.specs.Presence.{nowhere, word_at, marked, with, presence_of, below, entry_by};
ghost use Rattle.x1_lookup.specs.inner.Ones.{Counted};

use tables::number_of;
use x1_layout::points_at;
use x1_records::{ENTRIES, Track};

// The words of the numbers 0 to 63, 64 to 127, 128 to 191 and 192 to 255. A number's bit is set where a track has the number.
#[derive(Clone, Copy)]
pub struct Presence {
    pub first: u64,
    pub second: u64,
    pub third: u64,
    pub fourth: u64,
}

// How many numbers a word has; where the numbers of the second, third and fourth word start, and those that have no word.
const WORD: usize = 64;

const SECOND: usize = 64;

const THIRD: usize = 128;

const FOURTH: usize = 192;

const ABOVE: usize = 256;

// The word j, with the bit of a number where it is the number's word.
fn marked(j: usize, number: usize, word: u64) -> u64
    ensures { result ≡ marked j number word }
{
    if number / WORD == j {
        word | (1u64 << (number % WORD) as u32)
    } else {
        word
    }
}

// The ones of a word below its bit k.
fn ones_below(word: u64, k: u32) -> u32
    requires { k < 64 }
    ensures { Counted (ones (word % 2 ^ k)) 64 result }
{
    u64::count_ones(word & ((1u64 << k) - 1))
}

impl Presence {
    // No number is present.
    pub fn none() -> Self
        ensures { result ≡ nowhere }
    {
        Presence {
            first: 0,
            second: 0,
            third: 0,
            fourth: 0,
        }
    }

    // The words with one number more; one above 255 has no bit.
    pub fn with(self, number: usize) -> Self
        ensures { result ≡ with self number }
    {
        Presence {
            first: marked(0, number, self.first),
            second: marked(1, number, self.second),
            third: marked(2, number, self.third),
            fourth: marked(3, number, self.fourth),
        }
    }

    // The numbers of the entries of X.1.
    pub fn of(f: &[u8]) -> Self
        ensures { result ≡ presence_of f.now }
    {
        let stop = points_at(f);
        let mut words = Presence::none();
        for e in (ENTRIES..stop).step_by(Track::SIZE as usize) {
            words = words.with(number_of(f, e, Track::NUMBER));
        }
        words
    }

    // The word of a number.
    fn word_of(self, number: usize) -> u64
        ensures { result ≡ word_at self (number / 64) }
    {
        if number < SECOND {
            self.first
        } else if number < THIRD {
            self.second
        } else if number < FOURTH {
            self.third
        } else if number < ABOVE {
            self.fourth
        } else {
            0
        }
    }

    // How many numbers are present before those of a number's word.
    fn ones_before(self, number: usize) -> u32
        requires { number < 256 }
        ensures { Counted (below self (64 * (number / 64))) 192 result }
    {
        let first = u64::count_ones(self.first);
        let second = first + u64::count_ones(self.second);
        let third = second + u64::count_ones(self.third);
        if number < SECOND {
            0
        } else if number < THIRD {
            first
        } else if number < FOURTH {
            second
        } else {
            third
        }
    }

    // The entry of the track with a number, by the count of present numbers below it.
    pub fn entry(self, number: usize) -> Option<u32>
        ensures { result ≡ entry_by self number }
    {
        let k = (number % WORD) as u32;
        let word = self.word_of(number);
        if (word >> k) % 2 == 0 {
            return None;
        }
        let before = self.ones_before(number) + ones_below(word, k);
        Some(ENTRIES + Track::SIZE as u32 * before)
    }
}
