// Reasons, faults and verdicts (01, 'Verdicts and their order'), and the one step that every check is made of.
#![tactic(auto)]

ghost use Rattle.std.specs.Prelude.{◌≡◌};
ghost use Rattle.verdict.specs.Reasons.{number_of, file_of, fault_of, own_fault, number_by, place_by, pair_number_in, pair_place_in, pair_file_in};
ghost use Rattle.verdict.specs.Answers.{refusal, fault_in};
ghost use Rattle.verdict.specs.Facts.{mark, alone};

// Why an answer is refused, in the order of 01's table: 6 comes before 5. Those after 15 are 02's: a bad list of kinds is ticket 4's, which is to
// come, and the last three are a loader's, ticket 6.
#[derive(Clone, Copy)]
pub enum Reason {
    Length = 1,
    Checksum = 2,
    FileType = 3,
    Structure = 4,
    Layout = 6,
    Field = 5,
    Agreement = 7,
    Target = 8,
    Return = 9,
    Station = 10,
    Track = 11,
    Position = 12,
    Question = 13,
    Steps = 14,
    Room = 15,
    Kinds = 16,
    Identity = 17,
    Order = 18,
    Piece = 19,
}

// A reason, with the byte place that it is reported at.
#[derive(Clone, Copy)]
pub struct Fault {
    pub reason: Reason,
    pub place: usize,
}

// The file of a pair that is at fault.
#[derive(Clone, Copy)]
pub enum File {
    First = 1,
    Second = 2,
}

// A fault of a pair: the file that is at fault, and its fault.
#[derive(Clone, Copy)]
pub struct PairFault {
    pub file: File,
    pub fault: Fault,
}

// The shape of a rule, with its numbers. Where nothing else is said, it speaks of the number at the mark's place.
// A field or another field is given by its byte place.
#[derive(Clone, Copy)]
pub enum Rule {
    // the file's length lies between two numbers
    LengthBetween(usize, usize),
    // the number is this one
    Is(usize),
    // the number lies between two numbers
    Between(usize, usize),
    // the number, read as signed, is at most this far from 0
    Within(usize),
    // the number is one of these four
    AmongFour(usize, usize, usize, usize),
    // the number is one of these five
    AmongFive(usize, usize, usize, usize, usize),
    // the number divided by the first, modulo the second, lies between the other two
    Part(usize, usize, usize, usize),
    // the first number, where something ends that the field at the second tells, is at most the third, where its room ends; that is the
    // place in the fourth itself (End, where the checksum stands), or the number that stands there
    Fits(usize, usize, usize, usize),
    // the first number is whole times the second; it is how far the number at the mark's place is from the place in the third, or from the
    // number that stands there
    Whole(usize, usize, usize),
    // the mark's place is this one: End, where the checksum stands
    EndsAt(usize),
    // the size byte at this field is 16, or lies between the two numbers
    SizeByte(usize, usize, usize),
    // the last of the mark's bytes is this one
    LastByte(usize),
    // an object's name, of at least so many bytes
    ObjectName(usize),
    // a station's name
    StationName,
    // the number at this field, of so many bytes, is 0
    Zero(usize, usize),
    // the number at the first field is the one at the second, both of so many bytes
    SameAs(usize, usize, usize),
    // the number at the first field is above the one at the second, both of so many bytes
    Above(usize, usize, usize),
    // the signed number at the first field, added to the one at the second, is at most this far from 0
    SumWithin(usize, usize, usize),
    // the signed number at the first field, added to the one at the second, is the one at the third
    SumIs(usize, usize, usize),
    // a balise's rank in its group, which 01 calls its place, is at most the group's count
    RankInCount,
    // a balise's rank is 1, or the record directly before it is a balise of the same count and a lower rank; its group byte is this field
    InSequence(usize),
    // a link is 0 or names the start of another object
    NamesObject,
    // a link is 0 or is returned by a link of its target
    IsReturned,
    // a link is 0 or is another one than the link at this field
    NotDoubled(usize),
    // the station is that of the first file
    SameStation,
    // the track is in the first file
    InFirst,
    // the position is at most the end, in the first file, of the track that the byte at this field names
    WithinTrack(usize),
}

// What a fact is about: the reason it refuses for, the start of its record, the place that is reported, how many bytes the field has that
// stands there, and the rule. Of 0 bytes: what is reported is the start or the end of a record, and the rule has the field.
#[derive(Clone, Copy)]
pub struct Mark {
    pub reason: Reason,
    pub start: usize,
    pub place: usize,
    pub width: usize,
    pub rule: Rule,
}

impl Reason {
    // The paper's number.
    pub fn number(self) -> usize
        ensures { result ≡ number_of self }
    {
        self as usize
    }
}

impl File {
    // The paper's number of the file.
    pub fn number(self) -> usize
        ensures { result ≡ file_of self }
    {
        self as usize
    }
}

impl From<Mark> for Fault {
    ghost from_gives = { λ m t. t ≡ fault_of m };

    // What is reported of a mark: its reason and its place.
    fn from(mark: Mark) -> Self {
        Fault {
            reason: mark.reason,
            place: mark.place,
        }
    }
}

impl From<Mark> for PairFault {
    ghost from_gives = { λ m p. p ≡ own_fault m };

    // What is reported of a mark of the pair: its own faults are of file 2.
    fn from(mark: Mark) -> Self {
        PairFault {
            file: File::Second,
            fault: Fault::from(mark),
        }
    }
}

impl Fault {
    // The paper's number of the fault's reason.
    pub fn number(self) -> usize
        ensures { result ≡ number_of self.reason }
    {
        let reason = self.reason;
        reason.number()
    }
}

// The number of an answer, by its fault: 0 where there is none.
pub fn answer_number(fault: Option<Fault>) -> usize
    ensures { result ≡ number_by fault }
{
    match fault {
        None => 0,
        Some(fault) => fault.number(),
    }
}

// The place of an answer, by its fault: 0 where there is none.
pub fn answer_place(fault: Option<Fault>) -> usize
    ensures { result ≡ place_by fault }
{
    match fault {
        None => 0,
        Some(fault) => fault.place,
    }
}

// The number of a pair's verdict: 0 where the pair is accepted.
pub fn pair_number(verdict: Result<(), PairFault>) -> usize
    ensures { result ≡ pair_number_in verdict }
{
    match verdict {
        Ok(()) => 0,
        Err(p) => p.fault.number(),
    }
}

// The place of a pair's verdict: 0 where the pair is accepted.
pub fn pair_place(verdict: Result<(), PairFault>) -> usize
    ensures { result ≡ pair_place_in verdict }
{
    match verdict {
        Ok(()) => 0,
        Err(p) => p.fault.place,
    }
}

// The file at fault: 0 where the pair is accepted.
pub fn pair_file(verdict: Result<(), PairFault>) -> usize
    ensures { result ≡ pair_file_in verdict }
{
    match verdict {
        Ok(()) => 0,
        Err(p) => p.file.number(),
    }
}

// A refusal of the question itself, at place 0.
pub fn refusal(reason: Reason) -> Fault
    ensures { result ≡ refusal reason }
{
    Fault { reason, place: 0 }
}

// The fault of a file that is refused, which each question on it answers. An accepted file has none: what stands for it is never asked for.
pub fn fault_in(verdict: Result<(), Fault>) -> Fault
    ensures { result ≡ fault_in verdict }
{
    match verdict {
        Ok(()) => refusal(Reason::Question),
        Err(fault) => fault,
    }
}

// A fact: nothing where it holds, and else its mark.
pub fn fact(
    holds: bool,
    reason: Reason,
    start: usize,
    place: usize,
    width: usize,
    rule: Rule,
) -> Result<(), Mark>
    ensures { result ≡ alone holds (mark reason start place width rule) }
{
    if holds {
        return Ok(());
    }
    let mark = Mark {
        reason,
        start,
        place,
        width,
        rule,
    };
    Err(mark)
}
