// The fields of each kind of record: tables 6 to 12, a line for each rule in the table's order. For each table there are two functions: one
// tests the record, and one gives the first fault of the facts of the table. `at` is where the record starts. A test asks once whether
// the file ends before a byte of the record that may not be 0, a track or the signal byte: past the end a byte counts as 0, so that the
// record does not obey. Reads of what stands before that byte need not ask again.
#![tactic(auto, unfolding(verdict::specs::Facts::first_fault))]

ghost use Rattle.std.specs.Prelude.{◌≡◌, ◌++◌};
ghost use Rattle.verdict.specs.Facts.{all_tests, first_fault};
ghost use Rattle.tables.specs.Rows.{table_facts};
ghost use Rattle.x2_records.specs.Rows.{boundary_table, turnout_table, balise_table, signal_table, joint_table, siding_table};
ghost use Rattle.x2_kinds.specs.KindFields.{message_fields, kind_fields};

use names::{MAY_BE_EMPTY, NOT_EMPTY};
use octets::byte_at;
use tables::{
    among_five, among_four, between, equals, exactly, has_name, has_part, is_among_five,
    is_among_four, lies_between, named, number_of, part, place_of,
};
use verdict::{Mark, Reason, Rule, fact};
use x1_records::POSITION_MOST;
use x2_records::{Balise, Boundary, Joint, Kind, Siding, Signal, Turnout};

// The attribute byte of a balise: the direction of its group against rising positions, and its nature.
const OPPOSITE_VIRTUAL: usize = 0x40;

const OPPOSITE_PHYSICAL: usize = 0x41;

const SAME_VIRTUAL: usize = 0x80;

const SAME_PHYSICAL: usize = 0x81;

// The byte that ends a balise's message.
pub const MESSAGE_END: usize = 0xFF;

// The signal byte: the greatest direction, and the least and the greatest duty.
const FACING_MOST: usize = 2;

pub const DUTY_LEAST: usize = 1;

pub const DUTY_MOST: usize = 5;

// Tables 6 and 7: a boundary, whose type byte lies between two numbers.
#[tactic(auto, using(crate::proofs::Checks::nothing_there))]
fn boundary_obeys(f: &[u8], at: u32, low: usize, high: usize) -> bool
    ensures { result ≡ all_tests (table_facts f.now at (boundary_table low high)) }
{
    if f.len() < at as usize + Boundary::SIZE {
        return false;
    }
    let entry = lies_between(f, at, Boundary::ENTRY, low, high);
    let neighbour = is_among_five(
        f,
        at,
        Boundary::NEIGHBOUR_TYPE,
        Boundary::START_UP,
        Boundary::START_DOWN,
        Boundary::END_UP,
        Boundary::END_DOWN,
        Boundary::UNKNOWN,
    );
    let position = lies_between(f, at, Boundary::POSITION, 0, POSITION_MOST);
    let track = lies_between(f, at, Boundary::TRACK, 1, 255);
    entry & (neighbour & (position & track))
}

// The same, as facts.
// Stays (2): the walk over the records asks the test first, which is quicker than the facts; the verdict's pass over boundaries asks it alone.
fn boundary_fields(f: &[u8], at: u32, low: usize, high: usize) -> Result<(), Mark>
    ensures { result ≡ first_fault (table_facts f.now at (boundary_table low high)) }
{
    between(f, at, Boundary::ENTRY, low, high)?;
    among_five(
        f,
        at,
        Boundary::NEIGHBOUR_TYPE,
        Boundary::START_UP,
        Boundary::START_DOWN,
        Boundary::END_UP,
        Boundary::END_DOWN,
        Boundary::UNKNOWN,
    )?;
    between(f, at, Boundary::POSITION, 0, POSITION_MOST)?;
    between(f, at, Boundary::TRACK, 1, 255)
}

// Table 8: a turnout.
#[tactic(auto, using(crate::proofs::Checks::nothing_there))]
fn turnout_obeys(f: &[u8], at: u32) -> bool
    ensures { result ≡ all_tests (table_facts f.now at turnout_table) }
{
    if f.len() < at as usize + Turnout::SIZE {
        return false;
    }
    let entry = equals(f, at, Turnout::ENTRY, Turnout::TYPE);
    let number = lies_between(f, at, Turnout::NUMBER, 1, 255);
    let direction = lies_between(f, at, Turnout::DIRECTION, 0, 1);
    let tip = lies_between(f, at, Turnout::TIP_POSITION, 0, POSITION_MOST);
    let normal = lies_between(f, at, Turnout::NORMAL_POSITION, 0, POSITION_MOST);
    let reverse = lies_between(f, at, Turnout::REVERSE_POSITION, 0, POSITION_MOST);
    let front_track = lies_between(f, at, Turnout::FRONT_TRACK, 1, 255);
    let normal_track = lies_between(f, at, Turnout::NORMAL_TRACK, 1, 255);
    let reverse_track = lies_between(f, at, Turnout::REVERSE_TRACK, 1, 255);
    let tracks = front_track & (normal_track & reverse_track);
    entry & (number & (direction & (tip & (normal & (reverse & tracks)))))
}

// The same, as facts.
// Stays (2): the walk over the records asks the test first, which is quicker than the facts, and the facts only where it fails.
fn turnout_fields(f: &[u8], at: u32) -> Result<(), Mark>
    ensures { result ≡ first_fault (table_facts f.now at turnout_table) }
{
    exactly(f, at, Turnout::ENTRY, Turnout::TYPE)?;
    between(f, at, Turnout::NUMBER, 1, 255)?;
    between(f, at, Turnout::DIRECTION, 0, 1)?;
    between(f, at, Turnout::TIP_POSITION, 0, POSITION_MOST)?;
    between(f, at, Turnout::NORMAL_POSITION, 0, POSITION_MOST)?;
    between(f, at, Turnout::REVERSE_POSITION, 0, POSITION_MOST)?;
    between(f, at, Turnout::FRONT_TRACK, 1, 255)?;
    between(f, at, Turnout::NORMAL_TRACK, 1, 255)?;
    between(f, at, Turnout::REVERSE_TRACK, 1, 255)
}

// Table 9: a balise without its message.
#[tactic(auto, using(crate::proofs::Checks::nothing_there))]
fn fixed_obeys(f: &[u8], at: u32) -> bool
    ensures { result ≡ all_tests (table_facts f.now at balise_table) }
{
    if f.len() <= place_of(at, Balise::TRACK) {
        return false;
    }
    let entry = equals(f, at, Balise::ENTRY, Balise::TYPE);
    let number = lies_between(f, at, Balise::NUMBER, 0, Balise::NONE - 1);
    let attribute = is_among_four(
        f,
        at,
        Balise::ATTRIBUTE,
        OPPOSITE_VIRTUAL,
        OPPOSITE_PHYSICAL,
        SAME_VIRTUAL,
        SAME_PHYSICAL,
    );
    let position = lies_between(f, at, Balise::POSITION, 0, POSITION_MOST);
    let track = lies_between(f, at, Balise::TRACK, 1, 255);
    let group = has_part(f, at, Balise::GROUP, Balise::MIDDLE, 0, 0);
    entry & (number & (attribute & (position & (track & group))))
}

// The same, as facts.
// Stays (2): the walk over the records asks the test first, which is quicker than the facts, and the facts only where it fails.
fn fixed_fields(f: &[u8], at: u32) -> Result<(), Mark>
    ensures { result ≡ first_fault (table_facts f.now at balise_table) }
{
    exactly(f, at, Balise::ENTRY, Balise::TYPE)?;
    between(f, at, Balise::NUMBER, 0, Balise::NONE - 1)?;
    among_four(
        f,
        at,
        Balise::ATTRIBUTE,
        OPPOSITE_VIRTUAL,
        OPPOSITE_PHYSICAL,
        SAME_VIRTUAL,
        SAME_PHYSICAL,
    )?;
    between(f, at, Balise::POSITION, 0, POSITION_MOST)?;
    between(f, at, Balise::TRACK, 1, 255)?;
    part(f, at, Balise::GROUP, Balise::MIDDLE, 0, 0)
}

// The message of a balise, where it has one: its last byte is 0xFF.
#[tactic(auto, using(crate::proofs::Checks::no_message_tested, crate::proofs::Checks::message_tested))]
fn message_obeys(f: &[u8], at: u32) -> bool
    ensures { result ≡ all_tests (message_fields f.now at) }
{
    let size = number_of(f, at, Balise::SIZE_BYTE);
    if size <= Balise::SIZE {
        return true;
    }
    let place = at as usize + Balise::MESSAGE;
    let width = size - Balise::SIZE;
    byte_at(f, place + width - 1) == MESSAGE_END
}

// The same, as facts.
// Stays (2): the walk over the records asks the test first, which is quicker than the facts, and the facts only where it fails.
#[tactic(auto, using(crate::proofs::Checks::no_message, crate::proofs::Checks::message_judged))]
fn message_fields(f: &[u8], at: u32) -> Result<(), Mark>
    ensures { result ≡ first_fault (message_fields f.now at) }
{
    let size = number_of(f, at, Balise::SIZE_BYTE);
    if size <= Balise::SIZE {
        return Ok(());
    }
    let ok = message_obeys(f, at);
    let start = at as usize;
    let place = start + Balise::MESSAGE;
    let width = size - Balise::SIZE;
    let rule = Rule::LastByte(MESSAGE_END);
    fact(ok, Reason::Field, start, place, width, rule)
}

// A balise.
#[tactic(auto, using(crate::proofs::Checks::stops, crate::proofs::Checks::goes_on))]
pub fn balise_obeys(f: &[u8], at: u32) -> bool
    ensures { result ≡ all_tests (table_facts f.now at balise_table ++ message_fields f.now at) }
{
    if !fixed_obeys(f, at) {
        return false;
    }
    message_obeys(f, at)
}

// The same, as facts.
// Stays (2): the walk over the records asks the test first, which is quicker than the facts, and the facts only where it fails.
fn balise_fields(f: &[u8], at: u32) -> Result<(), Mark>
    ensures { result ≡ first_fault (table_facts f.now at balise_table ++ message_fields f.now at) }
{
    fixed_fields(f, at)?;
    message_fields(f, at)
}

// Table 10: a signal.
#[tactic(auto, using(crate::proofs::Checks::nothing_there))]
fn signal_obeys(f: &[u8], at: u32) -> bool
    ensures { result ≡ all_tests (table_facts f.now at signal_table) }
{
    if f.len() < at as usize + Signal::SIZE {
        return false;
    }
    let entry = equals(f, at, Signal::ENTRY, Signal::TYPE);
    let name = has_name(f, at, Signal::NAME, NOT_EMPTY);
    let position = lies_between(f, at, Signal::POSITION, 0, POSITION_MOST);
    let track = lies_between(f, at, Signal::TRACK, 1, 255);
    let top = has_part(f, at, Signal::BYTE, Signal::TOP, 0, FACING_MOST);
    let middle = has_part(f, at, Signal::BYTE, Signal::MIDDLE, 0, 0);
    let low = has_part(f, at, Signal::BYTE, Signal::LOW, DUTY_LEAST, DUTY_MOST);
    entry & (name & (position & (track & (top & (middle & low)))))
}

// The same, as facts.
// Stays (2): the walk over the records asks the test first, which is quicker than the facts, and the facts only where it fails.
fn signal_fields(f: &[u8], at: u32) -> Result<(), Mark>
    ensures { result ≡ first_fault (table_facts f.now at signal_table) }
{
    exactly(f, at, Signal::ENTRY, Signal::TYPE)?;
    named(f, at, Signal::NAME, NOT_EMPTY)?;
    between(f, at, Signal::POSITION, 0, POSITION_MOST)?;
    between(f, at, Signal::TRACK, 1, 255)?;
    part(f, at, Signal::BYTE, Signal::TOP, 0, FACING_MOST)?;
    part(f, at, Signal::BYTE, Signal::MIDDLE, 0, 0)?;
    part(f, at, Signal::BYTE, Signal::LOW, DUTY_LEAST, DUTY_MOST)
}

// Table 11: a joint.
#[tactic(auto, using(crate::proofs::Checks::nothing_there))]
fn joint_obeys(f: &[u8], at: u32) -> bool
    ensures { result ≡ all_tests (table_facts f.now at joint_table) }
{
    if f.len() < at as usize + Joint::SIZE {
        return false;
    }
    let entry = equals(f, at, Joint::ENTRY, Joint::TYPE);
    let name = has_name(f, at, Joint::NAME, MAY_BE_EMPTY);
    let position = lies_between(f, at, Joint::POSITION, 0, POSITION_MOST);
    let track = lies_between(f, at, Joint::TRACK, 1, 255);
    entry & (name & (position & track))
}

// The same, as facts.
// Stays (2): the walk over the records asks the test first, which is quicker than the facts, and the facts only where it fails.
fn joint_fields(f: &[u8], at: u32) -> Result<(), Mark>
    ensures { result ≡ first_fault (table_facts f.now at joint_table) }
{
    exactly(f, at, Joint::ENTRY, Joint::TYPE)?;
    named(f, at, Joint::NAME, MAY_BE_EMPTY)?;
    between(f, at, Joint::POSITION, 0, POSITION_MOST)?;
    between(f, at, Joint::TRACK, 1, 255)
}

// Table 12: a siding, whose two exit signal names may be empty.
#[tactic(auto, using(crate::proofs::Checks::nothing_there))]
fn siding_obeys(f: &[u8], at: u32) -> bool
    ensures { result ≡ all_tests (table_facts f.now at siding_table) }
{
    if f.len() <= place_of(at, Siding::TRACK) {
        return false;
    }
    let entry = equals(f, at, Siding::ENTRY, Siding::TYPE);
    let name = has_name(f, at, Siding::NAME, NOT_EMPTY);
    let track = lies_between(f, at, Siding::TRACK, 1, 255);
    let up = has_name(f, at, Siding::UP_SIGNAL, MAY_BE_EMPTY);
    let down = has_name(f, at, Siding::DOWN_SIGNAL, MAY_BE_EMPTY);
    entry & (name & (track & (up & down)))
}

// The same, as facts.
// Stays (2): the walk over the records asks the test first, which is quicker than the facts, and the facts only where it fails.
fn siding_fields(f: &[u8], at: u32) -> Result<(), Mark>
    ensures { result ≡ first_fault (table_facts f.now at siding_table) }
{
    exactly(f, at, Siding::ENTRY, Siding::TYPE)?;
    named(f, at, Siding::NAME, NOT_EMPTY)?;
    between(f, at, Siding::TRACK, 1, 255)?;
    named(f, at, Siding::UP_SIGNAL, MAY_BE_EMPTY)?;
    named(f, at, Siding::DOWN_SIGNAL, MAY_BE_EMPTY)
}

// A record of a kind.
#[tactic(auto, unfolding(crate::specs::KindFields::kind_fields))]
pub fn kind_obeys(f: &[u8], k: Kind, at: u32) -> bool
    ensures { result ≡ all_tests (kind_fields f.now k at) }
{
    match k {
        Kind::StartBoundary => boundary_obeys(f, at, Boundary::START_UP, Boundary::START_DOWN),
        Kind::EndBoundary => boundary_obeys(f, at, Boundary::END_DOWN, Boundary::END_UP),
        Kind::Turnout => turnout_obeys(f, at),
        Kind::Balise => balise_obeys(f, at),
        Kind::Signal => signal_obeys(f, at),
        Kind::Joint => joint_obeys(f, at),
        Kind::Siding => siding_obeys(f, at),
    }
}

// The same, as facts.
// Stays (2): the walk over the records asks the test first, which is quicker than the facts; the verdict's pass over boundaries asks it alone.
#[tactic(auto, unfolding(crate::specs::KindFields::kind_fields))]
pub fn kind_fields(f: &[u8], k: Kind, at: u32) -> Result<(), Mark>
    ensures { result ≡ first_fault (kind_fields f.now k at) }
{
    match k {
        Kind::StartBoundary => { boundary_fields(f, at, Boundary::START_UP, Boundary::START_DOWN) }
        Kind::EndBoundary => boundary_fields(f, at, Boundary::END_DOWN, Boundary::END_UP),
        Kind::Turnout => turnout_fields(f, at),
        Kind::Balise => balise_fields(f, at),
        Kind::Signal => signal_fields(f, at),
        Kind::Joint => joint_fields(f, at),
        Kind::Siding => siding_fields(f, at),
    }
}
