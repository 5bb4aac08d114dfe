// The header's fields: table 5.
ghost use Rattle.std.specs.Prelude.{◌≡◌, ◌≤◌};
ghost use Rattle.verdict.specs.Facts.{first_fault};
ghost use Rattle.x2_layout.specs.inner.Bounds.{count_most, header_most};
ghost use Rattle.x2_fields.specs.Fields.{header_fields, entries_fields};

use envelope::{DATA, HEADER, NUMBER_MOST, STATION};
use names::station_name;
use tables::{between, place_of};
use verdict::{Mark, Reason};
use x2_layout::{ENTRY_SIZE, ENTRY_TRACK, NAME};

// The data version, the station and its name.
// Stays (2): X.1 has the first two of these lines; one function for two lines would need a list of facts of its own in specs.
pub fn header_fields(f: &[u8]) -> Result<(), Mark>
    ensures { result ≡ first_fault (header_fields f.now) }
{
    between(f, HEADER, DATA, 1, NUMBER_MOST)?;
    between(f, HEADER, STATION, 1, NUMBER_MOST)?;
    station_name(f, 0, NAME)
}

// The tracks in so many entries from a place on.
pub fn entries_fields(f: &[u8], entries: usize, count: usize) -> Result<(), Mark>
    requires { (entries ≤ header_most) × (count ≤ count_most) }
    ensures { result ≡ first_fault (entries_fields f.now entries count) }
{
    let width = ENTRY_TRACK.1;
    // Stays (3): the index gives the entry's place; `?` ends it.
    for i in 0..count {
        let place = place_of((entries + ENTRY_SIZE * i) as u32, ENTRY_TRACK);
        rules::between(f, Reason::Field, 0, place, width, 1, 255)?;
    }
    Ok(())
}
