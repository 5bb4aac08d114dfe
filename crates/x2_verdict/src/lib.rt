// X.2, fixed application (01, 'X.2, fixed application' and 'Verdicts and their order'): the verdict of a file, the checks in 01's order,
// and the questions 'header' and 'record at an offset'.
#![tactic(auto, unfolding(verdict::specs::Facts::first_fault))]

ghost use Rattle.std.specs.Prelude.{◌≡◌, Ok, IfSome};
ghost use Rattle.verdict.specs.Facts.{first_fault};
ghost use Rattle.x2_layout.specs.inner.Bounds.{Bounded};
ghost use Rattle.x2_layout.specs.inner.Regions.{Regions};
ghost use Rattle.x2_verdict.specs.Facts.{record_facts, judged_of, verdict_of};
ghost use Rattle.x2_verdict.specs.Questions.{named_header_of, record_of};

use crate::first_pass::records_pass;
use crate::marked::Marked;
use crate::second_pass::links_pass;
use crate::starts::starts_record;
use envelope::{Header, MOST_LENGTH, check_seal};
use names::station_name_length;
use rules::length_between;
use verdict::{Fault, Mark, Reason, refusal};
use x2_fields::{check_agreement, check_fields, check_header};
use x2_layout::{Layout, NAME, find_layout, kind_at, layout_of};
use x2_links::{CELLS, check_targets};
use x2_records::Record;
use x2_returns::check_returns;

mod balise_pass;
mod first_pass;
mod inside;
mod kind_passes;
mod marked;
mod second_pass;
mod starts;

// How long an X.2 file is at least, and its type.
pub const LEAST_LENGTH: usize = 69;

pub const FILE_TYPE: usize = 2;

// The newest structure version, and the only one.
pub const NEWEST_VERSION: usize = 1;

// The header: what both files have alike, and the station's name, by its place and how many bytes it has without its closing zeros.
#[derive(Clone, Copy)]
pub struct NamedHeader {
    pub header: Header,
    pub name: usize,
    pub name_bytes: usize,
}

// Whether every record obeys: two passes over the records.
fn all_obey(f: &[u8], l: Layout) -> Option<()>
    requires { Bounded l × Regions f.now l }
    ensures { IfSome result (λ _. Ok tt ≡ first_fault (record_facts f.now l)) }
{
    check_header(f, l).ok()?;
    // Stays (6): fixed room on the stack, since a library crate uses no heap (project rule).
    let mut marks = [0u8; CELLS];
    records_pass(f, l, &mut marks)?;
    links_pass(&Marked {
        f,
        l,
        marks: &marks,
    })
}

// The checks of the records, one after the other, each over the whole file.
fn check_in_turn(f: &[u8], l: Layout) -> Result<(), Mark>
    requires { Bounded l }
    ensures { result ≡ first_fault (record_facts f.now l) }
{
    check_fields(f, l)?;
    check_agreement(f, l)?;
    check_targets(f, l)?;
    check_returns(f, l)
}

// The checks of the records of a file whose layout is right. Where two passes find nothing wrong, nothing is; else the checks go in turn, and
// tell what comes first in 01's order.
fn check_records(f: &[u8], l: Layout) -> Result<(), Mark>
    requires { Bounded l × Regions f.now l }
    ensures { result ≡ first_fault (record_facts f.now l) }
{
    if all_obey(f, l).is_some() {
        return Ok(());
    }
    check_in_turn(f, l)
}

// The first fact of an X.2 file that fails, with its mark.
pub fn first_fault(f: &[u8]) -> Result<(), Mark>
    ensures { result ≡ judged_of f.now }
{
    length_between(f, LEAST_LENGTH, MOST_LENGTH)?;
    check_seal(f, FILE_TYPE, NEWEST_VERSION)?;
    let l = find_layout(f)?;
    check_records(f, l)
}

// The verdict of an X.2 file.
pub fn verdict_of(f: &[u8]) -> Result<(), Fault>
    ensures { result ≡ verdict_of f.now }
{
    Ok(first_fault(f)?)
}

// The header.
pub fn header(f: &[u8]) -> Result<NamedHeader, Fault>
    ensures { result ≡ named_header_of f.now }
{
    // Stays (1): a question takes the verdict apart by `let .. else` (Form.5 in docs/PROMISES.md).
    let v = verdict_of(f);
    let Ok(()) = v else {
        return Err(v.unwrap_err());
    };
    let header = Header::read(f);
    Ok(NamedHeader {
        header,
        name: NAME,
        name_bytes: station_name_length(f, NAME),
    })
}

// The record that starts at an offset.
pub fn record_at(f: &[u8], offset: usize) -> Result<Record, Fault>
    ensures { result ≡ record_of f.now offset }
{
    // Stays (1): a question takes the verdict apart by `let .. else` (Form.5 in docs/PROMISES.md).
    let v = verdict_of(f);
    let Ok(()) = v else {
        return Err(v.unwrap_err());
    };
    let l = layout_of(f);
    if !starts_record(f, l, offset) {
        return Err(refusal(Reason::Question));
    }
    let k = kind_at(l, offset);
    let r = Record::read(f, k, offset as u16);
    Ok(r)
}
