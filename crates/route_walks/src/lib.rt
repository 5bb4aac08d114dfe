// Partial walks and routes (01, 'Routes'): what they are, all of them in order, and the words that they take in the bytes lent. That is
// defined in specs/; here stand the limits, the numbers that a lister counts, the search for an object in a walk, and the words in their bytes.
#![tactic(auto)]

ghost use Rattle.std.specs.Prelude.{◌≡◌, ◌<◌};
ghost use Rattle.route_walks.specs.Walks.{has};
ghost use Rattle.route_walks.specs.Lent.{room_of, lay, lays};

// The least and the highest limit: how many objects a walk may have.
pub const LIMIT_LEAST: usize = 2;

pub const LIMIT_MOST: usize = 512;

// The least and the highest budget: how many partial walks there may be.
pub const BUDGET_LEAST: usize = 1;

pub const BUDGET_MOST: usize = 65535;

// How many bytes a word of a list has.
pub const WORD_SIZE: usize = 2;

// The partial walks opened, the routes among them, and the words that these take.
#[derive(Clone, Copy)]
pub struct Tally {
    pub walks: usize,
    pub routes: usize,
    pub words: usize,
}

// Whether x stands in a walk. Every object is looked at: without an early way out the loop takes several at a time.
// Stays (3): by `contains` the listers call the test for a repeat at each step, where the loop is compiled in place; on the yard of the row `routes` of
// tools/bench, without the verdict, they took 886 us and 659 us by it, and 651 us and 452 us by the loop.
pub fn stands_in(walk: &[u16], x: u16) -> bool
    ensures { result ≡ has walk.now x }
{
    let mut found = false;
    for y in walk {
        found |= *y == x;
    }
    found
}

// Stores a word in two bytes, low byte first. There is room for it.
fn put_word(out: &mut [u8], at: usize, word: u16)
    requires { at < room_of out.old }
    ensures { out.new ≡ lay out.old at word }
{
    let [low, high] = word.to_le_bytes();
    out[WORD_SIZE * at] = low;
    out[WORD_SIZE * at + 1] = high;
}

// Stores words one after the other in the bytes lent, from a place in their list on, as many as find room.
pub fn put_words(out: &mut [u8], at: usize, words: &[u16])
    ensures { out.new ≡ lays out.old at words.now }
{
    let room = (out.len() / WORD_SIZE).saturating_sub(at);
    for (i, word) in words[..room.min(words.len())].iter().enumerate() {
        put_word(out, at + i, *word);
    }
}
