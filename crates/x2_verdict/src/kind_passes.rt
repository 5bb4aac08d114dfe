// The first pass over boundaries, turnouts, signals, joints and sidings: one loop over the records of a kind, which all have one size. Of a
// boundary it asks the test of its table. Of the others it tests single bytes of a record that lies inside the file, and is quicker so. What
// it tests says the same as the tables: four bytes are a position exactly where the last is below 0x80.
ghost use Rattle.std.specs.Prelude.{◌≡◌, ℕ, List, Bool, true, false, ◌+◌, ◌≤◌, ◌<◌, length, IfSome};
ghost use Rattle.octets.specs.Octets.{num_at};
ghost use Rattle.verdict.specs.Facts.{same, test, all_tests};
ghost use Rattle.rules.specs.Rules.{lies_between};
ghost use Rattle.tables.specs.Rows.{value_facts, row_facts};
ghost use Rattle.x2_records.specs.declared.Kind.{Kind};
ghost use Rattle.x2_records.specs.declared.Kind.TheVariants as kind;
ghost use Rattle.x2_records.specs.Places as place;
ghost use Rattle.x2_records.specs.Rows.{positions, signal_byte};
ghost use Rattle.x2_layout.specs.declared.Layout.{Layout};
ghost use Rattle.x2_layout.specs.inner.Bounds.{place_most, Bounded};
ghost use Rattle.x2_layout.specs.inner.Regions.{Whole, Regions};
ghost use Rattle.x2_kinds.specs.KindFields.{kind_fields};
ghost use Rattle.x2_verdict.specs.inner.Passes.{Sort, PlainKind, Passing};
ghost use Rattle.x2_verdict.specs.inner.Plains.{start_plain, end_plain, turnout_plain, signal_plain, joint_plain, siding_plain};

use crate::inside::byte_of;
use names::{MAY_BE_EMPTY, NOT_EMPTY, is_name};
use tables::Field;
use x2_kinds::kind_obeys;
use x2_layout::Layout;
use x2_links::{CELL, CELLS, mark_if};
use x2_records::{Boundary, Joint, Kind, Siding, Signal, Turnout};

// Which byte of a position is its last, and what that is below.
const TOP_BYTE: usize = 3;

const TOP_BELOW: u8 = 0x80;

// A turnout's greatest direction.
const DIRECTION_MOST: usize = 1;

// The signal byte: below what its direction is one of the three; and the least and the greatest duty.
const FACING_BELOW: usize = 0xC0;

const DUTY_LEAST: usize = 1;

const DUTY_MOST: usize = 5;

// ---- single bytes

// The byte of a field is this one.
fn is_byte(f: &[u8], at: usize, k: Field, x: usize) -> bool
    requires { at + k.0 < length f.now }
    ensures { result ≡ test (same (num_at 1 f.now (at + k.0)) x) }
{
    byte_of(f, at, k) == x
}

// The byte of a field is not 0, as a track is not.
fn not_zero(f: &[u8], at: usize, k: Field) -> bool
    requires { at + k.0 < length f.now }
    ensures { result ≡ test (lies_between 1 255 (num_at 1 f.now (at + k.0))) }
{
    byte_of(f, at, k) != 0
}

// The byte of a field is at most this one.
fn is_at_most(f: &[u8], at: usize, k: Field, x: usize) -> bool
    requires { at + k.0 < length f.now }
    ensures { result ≡ test (lies_between 0 x (num_at 1 f.now (at + k.0))) }
{
    byte_of(f, at, k) <= x
}

// The four bytes of a field are a position.
fn is_position(f: &[u8], at: usize, k: Field) -> bool
    requires { at + k.0 + 3 < length f.now }
    ensures { result ≡ all_tests (value_facts f.now at k.0 4 positions) }
{
    f[at + k.0 as usize + TOP_BYTE] < TOP_BELOW
}

// The signal byte of the signal at a place is right: the duty, and nothing in the middle, is what remains of it without its direction.
fn is_signal(f: &[u8], at: usize) -> bool
    requires { at + place.signal_size ≤ length f.now }
    ensures { result ≡ all_tests (row_facts f.now at signal_byte) }
{
    let b = byte_of(f, at, Signal::BYTE);
    let duty = b % Signal::TOP.0;
    (b < FACING_BELOW) & ((DUTY_LEAST <= duty) & (duty <= DUTY_MOST))
}

// ---- a record of each kind

// Table 8: a turnout.
#[tactic(auto, unfolding(x2_kinds::specs::KindFields::kind_fields))]
fn turnout_passes(f: &[u8], at: usize) -> bool
    requires { at + place.turnout_size ≤ length f.now }
    ensures { result ≡ all_tests (kind_fields f.now kind.Turnout at) }
{
    let entry = is_byte(f, at, Turnout::ENTRY, Turnout::TYPE);
    let number = not_zero(f, at, Turnout::NUMBER);
    let direction = is_at_most(f, at, Turnout::DIRECTION, DIRECTION_MOST);
    let tip = is_position(f, at, Turnout::TIP_POSITION);
    let normal = is_position(f, at, Turnout::NORMAL_POSITION);
    let reverse = is_position(f, at, Turnout::REVERSE_POSITION);
    let front_track = not_zero(f, at, Turnout::FRONT_TRACK);
    let normal_track = not_zero(f, at, Turnout::NORMAL_TRACK);
    let reverse_track = not_zero(f, at, Turnout::REVERSE_TRACK);
    let tracks = front_track & (normal_track & reverse_track);
    entry & (number & (direction & (tip & (normal & (reverse & tracks)))))
}

// Table 10: a signal.
#[tactic(auto, unfolding(x2_kinds::specs::KindFields::kind_fields))]
fn signal_passes(f: &[u8], at: usize) -> bool
    requires { at + place.signal_size ≤ length f.now }
    ensures { result ≡ all_tests (kind_fields f.now kind.Signal at) }
{
    let entry = is_byte(f, at, Signal::ENTRY, Signal::TYPE);
    let name = is_name(f, at + Signal::NAME.0 as usize, NOT_EMPTY);
    let position = is_position(f, at, Signal::POSITION);
    let track = not_zero(f, at, Signal::TRACK);
    let signal = is_signal(f, at);
    entry & (name & (position & (track & signal)))
}

// Table 11: a joint.
#[tactic(auto, unfolding(x2_kinds::specs::KindFields::kind_fields))]
fn joint_passes(f: &[u8], at: usize) -> bool
    requires { at + place.joint_size ≤ length f.now }
    ensures { result ≡ all_tests (kind_fields f.now kind.Joint at) }
{
    let entry = is_byte(f, at, Joint::ENTRY, Joint::TYPE);
    let name = is_name(f, at + Joint::NAME.0 as usize, MAY_BE_EMPTY);
    let position = is_position(f, at, Joint::POSITION);
    let track = not_zero(f, at, Joint::TRACK);
    entry & (name & (position & track))
}

// Table 12: a siding.
#[tactic(auto, unfolding(x2_kinds::specs::KindFields::kind_fields))]
fn siding_passes(f: &[u8], at: usize) -> bool
    requires { at + place.siding_size ≤ length f.now }
    ensures { result ≡ all_tests (kind_fields f.now kind.Siding at) }
{
    let entry = is_byte(f, at, Siding::ENTRY, Siding::TYPE);
    let name = is_name(f, at + Siding::NAME.0 as usize, NOT_EMPTY);
    let track = not_zero(f, at, Siding::TRACK);
    let up = is_name(f, at + Siding::UP_SIGNAL.0 as usize, MAY_BE_EMPTY);
    let down = is_name(f, at + Siding::DOWN_SIGNAL.0 as usize, MAY_BE_EMPTY);
    entry & (name & (track & (up & down)))
}

// ---- the records of each kind

// A kind of records that all have one size, and agree whatever stands in them: its fields are what the first pass asks.
pub trait Plain {
    ghost sort: { Kind };

    ghost BYTES: { ℕ };

    ghost NAMED: { Bool };

    // How many bytes a record has, and whether a link may name it.
    const BYTES: usize;

    const NAMED: bool;

    // A record that lies inside the file obeys by its fields.
    fn passes(f: &[u8], at: usize) -> bool
        requires { (at ≤ place_most) × (at + BYTES ≤ length f.now) }
        ensures { result ≡ all_tests (kind_fields f.now sort at) };

    ghost plain: { (f : List ℕ) (l : Layout) → PlainKind f l sort BYTES NAMED };
}

// The boundaries of each kind.
pub struct StartBoundaries;

impl Plain for StartBoundaries {
    ghost sort = { kind.StartBoundary };

    ghost BYTES = { place.boundary_size };

    ghost NAMED = { true };

    const BYTES: usize = Boundary::SIZE;

    const NAMED: bool = true;

    fn passes(f: &[u8], at: usize) -> bool {
        kind_obeys(f, Kind::StartBoundary, at as u32)
    }

    ghost plain = { λ f l. start_plain };
}

pub struct EndBoundaries;

impl Plain for EndBoundaries {
    ghost sort = { kind.EndBoundary };

    ghost BYTES = { place.boundary_size };

    ghost NAMED = { true };

    const BYTES: usize = Boundary::SIZE;

    const NAMED: bool = true;

    fn passes(f: &[u8], at: usize) -> bool {
        kind_obeys(f, Kind::EndBoundary, at as u32)
    }

    ghost plain = { λ f l. end_plain };
}

impl Plain for Turnout {
    ghost sort = { kind.Turnout };

    ghost BYTES = { place.turnout_size };

    ghost NAMED = { true };

    const BYTES: usize = Turnout::SIZE;

    const NAMED: bool = true;

    fn passes(f: &[u8], at: usize) -> bool {
        turnout_passes(f, at)
    }

    ghost plain = { λ f l. turnout_plain };
}

impl Plain for Signal {
    ghost sort = { kind.Signal };

    ghost BYTES = { place.signal_size };

    ghost NAMED = { true };

    const BYTES: usize = Signal::SIZE;

    const NAMED: bool = true;

    fn passes(f: &[u8], at: usize) -> bool {
        signal_passes(f, at)
    }

    ghost plain = { λ f l. signal_plain };
}

impl Plain for Joint {
    ghost sort = { kind.Joint };

    ghost BYTES = { place.joint_size };

    ghost NAMED = { true };

    const BYTES: usize = Joint::SIZE;

    const NAMED: bool = true;

    fn passes(f: &[u8], at: usize) -> bool {
        joint_passes(f, at)
    }

    ghost plain = { λ f l. joint_plain };
}

impl Plain for Siding {
    ghost sort = { kind.Siding };

    ghost BYTES = { place.siding_size };

    ghost NAMED = { false };

    const BYTES: usize = Siding::SIZE;

    const NAMED: bool = false;

    fn passes(f: &[u8], at: usize) -> bool {
        siding_passes(f, at)
    }

    ghost plain = { λ f l. siding_plain };
}

// The records of a kind, which stand from a place to another, after the record at `before`: where the last of them starts, if each passes.
pub fn kind_pass<K: Plain>(
    f: &[u8],
    l: Layout,
    from: usize,
    until: usize,
    before: u32,
    marks: &mut [u8; CELLS],
) -> Option<u32>
    requires { Bounded l × Regions f.now l × Sort l K.sort from until × Whole K.BYTES from until × Passing f.now l marks.old before from }
    ensures { IfSome result (λ last. Passing f.now l marks.new last until) }
{
    let mut last = before;
    for at in (from..until).step_by(K::BYTES) {
        if !K::passes(f, at) {
            return None;
        }
        marks[at / CELL] = mark_if(K::NAMED, at);
        last = at as u32;
    }
    Some(last)
}
