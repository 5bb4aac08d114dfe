// Groups of records that follow each other without gaps (01: 'A group runs to the next nonzero group offset, else to End'). A header has an
// offset for each group, in the groups' order; 0 is an empty group. A group is due where what is before it ends.
ghost use Rattle.std.specs.Prelude.{◌≡◌, ◌-◌, ◌≤◌, ◌<◌};
ghost use Rattle.verdict.specs.Facts.{first_fault};
ghost use Rattle.x2_layout.specs.inner.Bounds.{groups_most, slice_over, Near};
ghost use Rattle.x2_layout.specs.Groups.{made_of, group_in, groups_from, groups_of, next_start, next_field, end_from, group_layout, made_facts, one_group, group_facts};

use crate::balises::walk_layout;
use crate::{
    BALISES, ELEMENT_SIZE, Grouping, JOINTS, Made, OFFSET_SIZE, Offsets, SIGNALS, TURNOUTS,
};
use octets::{Width, u16_at};
use rules::{ends_at, fits, is_number, whole};
use verdict::{Mark, Reason};
use x2_records::{Joint, Siding, Signal, Turnout};

// What the group with an index is made of.
// Stays (7): an index of the header's offsets, which the loop over them counts.
#[tactic(auto, unfolding(crate::specs::Groups::made_of))]
fn made_of(file: Grouping, i: usize) -> Made
    ensures { result ≡ made_of file i }
{
    match (file, i) {
        (Grouping::Elements, _) => Made::Fixed(ELEMENT_SIZE),
        (Grouping::Yard, TURNOUTS) => Made::Fixed(Turnout::SIZE),
        (Grouping::Yard, BALISES) => Made::Balises,
        (Grouping::Yard, SIGNALS) => Made::Fixed(Signal::SIZE),
        (Grouping::Yard, JOINTS) => Made::Fixed(Joint::SIZE),
        (Grouping::Yard, _) => Made::Fixed(Siding::SIZE),
    }
}

// The next group: where its offset stands, and the offset.
#[derive(Clone, Copy)]
struct Next {
    field: usize,
    start: usize,
}

// The first nonzero offset of the groups from an index on, else End for both.
// Stays (5): an invariant of `Offsets` would say its four fields a second time, as a model, for one fact of four functions.
fn next_group(f: &[u8], o: Offsets, i: usize) -> Next
    requires { Near o }
    ensures start { result.start ≡ next_start f.now o.end (groups_from o (o.count - i) i) }
    ensures below { result.start < slice_over }
    ensures field { result.field ≡ next_field f.now o.end (groups_from o (o.count - i) i) }
{
    // Stays (3): the index is the offset's place in the header; a chain would end in the same two numbers.
    for j in i..o.count {
        let field = o.base + OFFSET_SIZE * j;
        let start = u16_at(f, field);
        if start != 0 {
            return Next { field, start };
        }
    }
    Next {
        field: o.end,
        start: o.end,
    }
}

// Where the group with an index ends, which is due at a place: it runs to the next nonzero offset, else to End; an empty one ends where it
// is due.
pub fn group_end(f: &[u8], o: Offsets, i: usize, due: usize) -> usize
    requires { Near o × (i ≤ groups_most) × (due < slice_over) }
    ensures value { result ≡ end_from f.now o i due }
    ensures upper_bound { result < slice_over }
{
    if u16_at(f, o.base + OFFSET_SIZE * i) == 0 {
        return due;
    }
    next_group(f, o, i + 1).start
}

// A nonzero group, with its offset at a field: it starts where it is due, and its end, which is told at `next`, is above its start and
// not over End.
fn group_layout(
    f: &[u8],
    field: usize,
    due: usize,
    until: usize,
    next: usize,
    end: usize,
) -> Result<(), Mark>
    ensures { result ≡ first_fault (group_layout f.now field due until next end) }
{
    let off = u16_at(f, field);
    is_number(f, Reason::Layout, 0, field, Width::Two, due)?;
    fits(0, field, OFFSET_SIZE, off + 1, field, until, next)?;
    fits(0, field, OFFSET_SIZE, until, next, end, end)
}

// The records of a group, whose offset is at a field, are whole ones.
#[tactic(auto, unfolding(crate::specs::Groups::made_facts))]
fn made_layout(f: &[u8], field: usize, until: usize, next: usize, made: Made) -> Result<(), Mark>
    requires { until < slice_over }
    ensures { result ≡ first_fault (made_facts f.now field until next made) }
{
    let off = u16_at(f, field);
    match made {
        Made::Fixed(size) => whole(0, field, OFFSET_SIZE, until.saturating_sub(off), size, next),
        Made::Balises => walk_layout(f, off, until, next),
    }
}

// The group with an index, from where it is due to its end, which is told at `next`: if it is not empty, it is right and whole records.
#[tactic(auto, using(crate::proofs::Loops::one_empty, crate::proofs::Loops::one_fault))]
fn one_group(
    f: &[u8],
    o: Offsets,
    i: usize,
    due: usize,
    until: usize,
    next: usize,
) -> Result<(), Mark>
    requires { Near o × (i ≤ groups_most) × (until < slice_over) }
    ensures { result ≡ first_fault (one_group f.now o.end due until next (group_in o i)) }
{
    let field = o.base + OFFSET_SIZE * i;
    if u16_at(f, field) == 0 {
        return Ok(());
    }
    let file = o.file;
    group_layout(f, field, due, until, next, o.end)?;
    made_layout(f, field, until, next, made_of(file, i))
}

// The groups in field order, the first due at a place; at last, what came ends at End. `last` is where the last record before the groups
// starts.
pub fn check_groups(f: &[u8], o: Offsets, first: usize, last: usize) -> Result<(), Mark>
    requires { Near o × (first < slice_over) }
    ensures { result ≡ first_fault (group_facts f.now last o.end first (groups_of o)) }
{
    let mut due = first;
    // Stays (3): the index is the group's; each group is due where the one before it ends.
    for i in 0..o.count {
        let until = group_end(f, o, i, due);
        let next = next_group(f, o, i + 1);
        one_group(f, o, i, due, until, next.field)?;
        due = until;
    }
    ends_at(last, due, o.end)
}
