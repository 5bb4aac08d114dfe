// What the programs print for each question: `answer NUMBER PLACE` (for a pair, and for what lies ahead, `answer NUMBER PLACE FILE`), and after an
// answer its values, a name and a value to a line (the objects ahead all on one line), numbers in decimal and a binary64 by its bits; after a
// refusal nothing. Each function returns the answer's number, 0 where it was answered.
#![tactic(auto)]

mod ahead_answers;
mod degrees_answers;
mod geography_answers;
mod header_answers;
mod pair_answers;
mod record_answers;

pub use ahead_answers::ahead;
pub use degrees_answers::{degrees, point_degrees};
pub use geography_answers::{coordinate, point, track, x1, x1_version_1};
pub use header_answers::{header1, header2};
pub use pair_answers::pair;
pub use record_answers::{record, x2};
