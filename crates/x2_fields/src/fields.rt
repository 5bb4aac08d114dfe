// The fields of X.2: 5 in 01's table.
ghost use Rattle.std.specs.Prelude.{◌≡◌};
ghost use Rattle.verdict.specs.Facts.{first_fault};
ghost use Rattle.x2_layout.specs.inner.Bounds.{Bounded, if_bounded};
ghost use Rattle.x2_layout.specs.Records.{each_record};
ghost use Rattle.x2_kinds.specs.KindFields.{kind_fields};
ghost use Rattle.x2_fields.specs.Fields.{field_facts};
ghost use Rattle.x2_fields.specs.inner.Header.{header_facts};

use crate::agreement::entries_agree;
use crate::header::{entries_fields, header_fields};
use verdict::Mark;
use x2_kinds::{kind_fields, kind_obeys};
use x2_layout::{ENTRY_SIZE, Layout, START_ENTRIES, is_bounded, kind_at, size_of};

// The fields of every record: the facts of the first that does not obey are the verdict.
fn records_fields(f: &[u8], l: Layout) -> Result<(), Mark>
    requires { Bounded l }
    ensures { result ≡ first_fault (each_record f.now l (kind_fields f.now)) }
{
    let end = l.end;
    let mut at = l.starts;
    // Stays (3): each record says where the next one starts; an iterator of them would hold the same lines, and one more to make it.
    while at < end {
        let k = kind_at(l, at);
        if !kind_obeys(f, k, at as u32) {
            return kind_fields(f, k, at as u32);
        }
        at = at + size_of(f, k, at);
    }
    Ok(())
}

// The fields of the header, and the tracks of its boundaries, which are those of the records.
fn all_header(f: &[u8], l: Layout) -> Result<(), Mark>
    requires { Bounded l }
    ensures { result ≡ first_fault (header_facts f.now l) }
{
    let end_entries = START_ENTRIES + ENTRY_SIZE * l.n + 1;
    header_fields(f)?;
    entries_fields(f, START_ENTRIES, l.n)?;
    entries_fields(f, end_entries, l.k)?;
    entries_agree(f, START_ENTRIES, l.starts, l.n)?;
    entries_agree(f, end_entries, l.ends, l.k)
}

// What the header is asked by itself: its fields and its agreement. A layout that no file has is not looked at.
// Stays (2): one function of the three would take a closure that asks for a bounded layout.
#[tactic(auto, using(x2_layout::proofs::Bounds::none_asked, x2_layout::proofs::Bounds::is_bounded, x2_layout::proofs::Bounds::all_judged))]
pub fn check_header(f: &[u8], l: Layout) -> Result<(), Mark>
    ensures { result ≡ first_fault (if_bounded l (header_facts f.now l)) }
{
    if !is_bounded(l) {
        return Ok(());
    }
    all_header(f, l)
}

// The fields of the header and of every record.
fn all_fields(f: &[u8], l: Layout) -> Result<(), Mark>
    requires { Bounded l }
    ensures { result ≡ first_fault (field_facts f.now l) }
{
    let end_entries = START_ENTRIES + ENTRY_SIZE * l.n + 1;
    header_fields(f)?;
    entries_fields(f, START_ENTRIES, l.n)?;
    entries_fields(f, end_entries, l.k)?;
    records_fields(f, l)
}

// The fields. A layout that no file has is not looked at.
// Stays (2): one function of the three would take a closure that asks for a bounded layout.
#[tactic(auto, using(x2_layout::proofs::Bounds::none_asked, x2_layout::proofs::Bounds::is_bounded, x2_layout::proofs::Bounds::all_judged))]
pub fn check_fields(f: &[u8], l: Layout) -> Result<(), Mark>
    ensures { result ≡ first_fault (if_bounded l (field_facts f.now l)) }
{
    if !is_bounded(l) {
        return Ok(());
    }
    all_fields(f, l)
}
