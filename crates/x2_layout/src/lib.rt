// X.2's layout (01, 'X.2, fixed application' and 'Layout faults'): where the records of a file stand, the first fault of that, and the
// records one after the other.
#![tactic(auto, unfolding(verdict::specs::Facts::first_fault))]

use envelope::MOST_LENGTH;
use octets::Width;
use tables::Field;

mod balises;
mod faults;
mod groups;
mod numbers;
mod stream;

pub use faults::find_layout;
pub use numbers::{is_bounded, layout_of};
pub use stream::{kind_at, size_of};

// The two counts of a header, and where each sort of records starts, in stored order. Each starts where the one before it ends, so an empty
// group starts where the next one does.
#[derive(Clone, Copy)]
pub struct Layout {
    // n: how many start boundaries the header names
    pub n: usize,
    // k: how many end boundaries it names
    pub k: usize,
    // where the start boundaries start and the header ends
    pub starts: usize,
    // where the end boundaries start
    pub ends: usize,
    // where the turnouts start and the boundaries end
    pub turnouts: usize,
    pub balises: usize,
    pub signals: usize,
    pub joints: usize,
    pub sidings: usize,
    // End: the file's length without its checksum, where the sidings end
    pub end: usize,
}

// What the records of a group are: of one size, or balises, each of its own size.
// Stays (1): `None` in the place of `Balises` would not say what is walked.
#[derive(Clone, Copy)]
pub enum Made {
    Fixed(usize),
    Balises,
}

// Whose groups they are: X.2's five, or X.3's, all of elements.
// Stays (7): a closed choice of two headers, which one match takes apart; `made_of` (01: X2.header.1) names both.
#[derive(Clone, Copy)]
pub enum Grouping {
    Yard,
    Elements,
}

// The group offsets of a header.
#[derive(Clone, Copy)]
pub struct Offsets {
    // whose groups they are
    pub file: Grouping,
    // where the first offset stands
    pub base: usize,
    // how many there are
    pub count: usize,
    // End, where the last group ends
    pub end: usize,
}

// Table 5: where the fields of the header stand that come after those of both files. The station's name is given by its place.
pub const NAME: usize = 7;

pub const START_COUNT: Field = Field(23, Width::One);

// Where the entries of the start boundaries stand, each field of an entry counted from the entry's start, and the entry's size.
pub const START_ENTRIES: usize = 24;

pub const ENTRY_TRACK: Field = Field(0, Width::One);

pub const ENTRY_OFFSET: Field = Field(1, Width::Two);

pub const ENTRY_SIZE: usize = 3;

// The size of a group's offset, how many groups X.2 has, and the index of each in the header's order. The sidings come last.
pub const OFFSET_SIZE: usize = 2;

pub const YARD_GROUPS: usize = 5;

// Stays (1): they count the offsets of one header, as the loop over either file's groups does; an enum would be made a number at each.
pub const TURNOUTS: usize = 0;

pub const BALISES: usize = 1;

pub const SIGNALS: usize = 2;

pub const JOINTS: usize = 3;

// The size of an element of X.3.
pub const ELEMENT_SIZE: usize = 14;

// The greatest count, which stands in one byte, and the greatest place of a file.
pub const COUNT_MOST: usize = 255;

pub const PLACE_MOST: usize = MOST_LENGTH;

// A balise's size byte, where the balise has a message.
pub const SIZE_LEAST: usize = 18;

pub const SIZE_MOST: usize = 120;
