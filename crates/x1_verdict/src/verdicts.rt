// The verdict of an X.1 file (01, 'Verdicts and their order'): the checks in 01's order.
ghost use Rattle.std.specs.Prelude.{◌≡◌, ◌≤◌, ◌<◌, length};
ghost use Rattle.verdict.specs.Facts.{first_fault};
ghost use Rattle.envelope.specs.Seal.{most_length};
ghost use Rattle.x1_verdict.specs.Facts.{sized_facts, judged_by, verdict_by, judged_of, verdict_of};

use crate::agreement::check_agreement;
use crate::fields::check_fields;
use crate::pass::all_obey;
use envelope::{MOST_LENGTH, check_seal, structure_of};
use rules::length_between;
use verdict::{Fault, Mark};
use x1_layout::{check_layout, size_of};
use x1_records::{LEAST_LENGTH, NEWEST_VERSION, least_length};

// An X.1 file's type.
pub const FILE_TYPE: usize = 1;

// The first fact that fails of those over the size of a point: the layout, the fields and the agreement.
#[tactic(auto, using(verdict::proofs::Facts::accepted_first, verdict::proofs::Facts::refused_first), unfolding(crate::specs::Facts::sized_facts, verdict::specs::Facts::first_fault))]
fn sized_fault(f: &[u8], size: u8) -> Result<(), Mark>
    requires { (length f.now ≤ most_length) × (0 < size) }
    ensures { result ≡ first_fault (sized_facts f.now size) }
{
    check_layout(f, size)?;
    if all_obey(f, size) {
        return Ok(());
    }
    check_fields(f, size)?;
    check_agreement(f, size)
}

// The first fact of an X.1 file that fails, with its mark, for a reader that knows the structure versions up to the newest.
#[tactic(auto, using(verdict::proofs::Facts::accepted_first, verdict::proofs::Facts::refused_first), unfolding(crate::specs::Facts::facts_by, verdict::specs::Facts::first_fault))]
fn first_fault_by(f: &[u8], newest: usize) -> Result<(), Mark>
    ensures { result ≡ judged_by newest f.now }
{
    length_between(f, LEAST_LENGTH, MOST_LENGTH)?;
    check_seal(f, FILE_TYPE, newest)?;
    let least = least_length(structure_of(f));
    length_between(f, least, MOST_LENGTH)?;
    sized_fault(f, size_of(f))
}

// The first fact of an X.1 file that fails, with its mark.
pub fn first_fault(f: &[u8]) -> Result<(), Mark>
    ensures { result ≡ judged_of f.now }
{
    first_fault_by(f, NEWEST_VERSION)
}

// The verdict of an X.1 file.
pub fn verdict_of(f: &[u8]) -> Result<(), Fault>
    ensures { result ≡ verdict_of f.now }
{
    Ok(first_fault(f)?)
}

// The only structure version that the version 1 reader knows.
const VERSION_1: usize = 1;

// The verdict of the version 1 reader.
pub fn version_1_verdict(f: &[u8]) -> Result<(), Fault>
    ensures { result ≡ verdict_by 1 f.now }
{
    Ok(first_fault_by(f, VERSION_1)?)
}
