// X.1, track geography (01, 'X.1, track geography'): the verdict of a file, check by check in 01's order: the layout, the fields, the
// agreement. In every check the file comes first, then the size of a point, then where a record starts: e for a track's entry, p for a point.
#![tactic(auto, unfolding(verdict::specs::Facts::first_fault))]

mod agreement;
mod fields;
mod pass;
pub mod verdicts;

pub use agreement::sum_of;
