// Where the records of an X.2 file stand, as its header has it (01, 'X.2, fixed application').
ghost use Rattle.std.specs.Prelude.{◌≡◌, ◌≤◌, ◌<◌};
ghost use Rattle.verdict.specs.Facts.{test};
ghost use Rattle.x2_layout.specs.Layout.{yard_offsets, layout_of};
ghost use Rattle.x2_layout.specs.inner.Bounds.{header_most, slice_over, bounded, Near, Small};

use crate::groups::group_end;
use crate::{
    BALISES, COUNT_MOST, ENTRY_SIZE, Grouping, JOINTS, Layout, OFFSET_SIZE, Offsets, PLACE_MOST,
    SIGNALS, START_COUNT, START_ENTRIES, TURNOUTS, YARD_GROUPS,
};
use envelope::{HEADER, end_of};
use octets::byte_at;
use tables::number_of;
use x2_records::Boundary;

// Whether the numbers of a layout are those of a file.
pub fn is_bounded(l: Layout) -> bool
    ensures { result ≡ test (bounded l) }
{
    (l.n <= COUNT_MOST)
        & ((l.k <= COUNT_MOST)
            & ((l.starts <= PLACE_MOST) & ((l.ends <= PLACE_MOST) & (l.end <= PLACE_MOST))))
}

// X.2's five group offsets, the first at a base.
pub fn yard_offsets(base: usize, end: usize) -> Offsets
    requires { (base ≤ header_most) × (end < slice_over) }
    ensures value { result ≡ yard_offsets base end }
    ensures near { Near result }
{
    let file = Grouping::Yard;
    Offsets {
        file,
        base,
        count: YARD_GROUPS,
        end,
    }
}

// All numbers of the layout.
pub fn layout_of(f: &[u8]) -> Layout
    ensures value { result ≡ layout_of f.now }
    ensures small { Small result }
{
    let end = end_of(f);
    let n = number_of(f, HEADER, START_COUNT);
    let end_count = START_ENTRIES + ENTRY_SIZE * n;
    let k = byte_at(f, end_count);
    let groups = end_count + 1 + ENTRY_SIZE * k;
    let starts = groups + OFFSET_SIZE * YARD_GROUPS;
    let ends = starts + Boundary::SIZE * n;
    let turnouts = ends + Boundary::SIZE * k;
    let o = yard_offsets(groups, end);
    let balises = group_end(f, o, TURNOUTS, turnouts);
    let signals = group_end(f, o, BALISES, balises);
    let joints = group_end(f, o, SIGNALS, signals);
    let sidings = group_end(f, o, JOINTS, joints);
    Layout {
        n,
        k,
        starts,
        ends,
        turnouts,
        balises,
        signals,
        joints,
        sidings,
        end,
    }
}
