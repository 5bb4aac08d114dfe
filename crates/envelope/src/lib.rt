// What both files have alike (01, 'Bytes and checksum' and 'Verdicts and their order'): how long they are at most, End, the first fields
// of the header, and the checks of the checksum, the file type and the structure version, 2 to 4 in 01's table.
#![tactic(auto, unfolding(verdict::specs::Facts::first_fault))]

ghost use Rattle.std.specs.Prelude.{◌≡◌};
ghost use Rattle.verdict.specs.Facts.{first_fault};
ghost use Rattle.envelope.specs.Seal.{end_of, structure_of, seal_facts};
ghost use Rattle.envelope.specs.Header.{header_in};

use octets::Width;
use rules::is_number;
use tables::{Field, number_between, number_is, number_of};
use verdict::{Mark, Reason};

// The most bytes of a file.
pub const MOST_LENGTH: usize = 65535;

// The first fields of the header: the file type, the two versions and the station.
pub const TYPE: Field = Field(0, Width::One);

pub const STRUCTURE: Field = Field(1, Width::Two);

pub const DATA: Field = Field(3, Width::Two);

pub const STATION: Field = Field(5, Width::Two);

// Where the header starts, and the greatest number of a version or a station, which has two bytes.
pub const HEADER: u32 = 0;

pub const NUMBER_MOST: usize = 65535;

// The first structure version of either file.
const FIRST_STRUCTURE: usize = 1;

// The bytes of the checksum, which stands after End.
pub const CHECKSUM_SIZE: usize = 4;

// The fields that follow the file type in the header of both files: the structure version, the data version and the station.
#[derive(Clone, Copy)]
pub struct Header {
    pub structure: usize,
    pub data: usize,
    pub station: usize,
}

impl Header {
    // The header of a file.
    pub fn read(f: &[u8]) -> Self
        ensures { result ≡ header_in f.now }
    {
        Header {
            structure: structure_of(f),
            data: number_of(f, HEADER, DATA),
            station: number_of(f, HEADER, STATION),
        }
    }
}

// 'End': the length without the checksum; 0 where there is no room for it.
pub fn end_of(f: &[u8]) -> usize
    ensures { result ≡ end_of f.now }
{
    f.len().saturating_sub(CHECKSUM_SIZE)
}

// A file's structure version.
pub fn structure_of(f: &[u8]) -> usize
    ensures { result ≡ structure_of f.now }
{
    number_of(f, HEADER, STRUCTURE)
}

// The checksum, the file type and the structure version, which is one of those up to the newest that is known.
// Stays (1): `kind` is the number that 01 has the field of the file type hold, and is compared with it as any other number is with its field.
pub fn check_seal(f: &[u8], kind: usize, newest: usize) -> Result<(), Mark>
    ensures { result ≡ first_fault (seal_facts f.now kind newest) }
{
    let end = end_of(f);
    let sum = checksum::of_first(f, end);
    is_number(f, Reason::Checksum, 0, end, Width::Four, sum)?;
    number_is(f, Reason::FileType, HEADER, TYPE, kind)?;
    number_between(
        f,
        Reason::Structure,
        HEADER,
        STRUCTURE,
        FIRST_STRUCTURE,
        newest,
    )
}
