// The targets of X.2's links (01, 'Links'): check 8 of a file whose layout was found; crate x2_returns has check 9. The facts go in
// byte order, and the first that fails is the answer. Where a record's links stand comes from its table, as one value (`Kind::links`).
#![tactic(auto, unfolding(verdict::specs::Facts::first_fault))]

mod marks;
mod named;
mod targets;

pub use marks::{CELL, CELLS, is_target, mark_if, may_link};
pub use named::may_name;
pub use targets::check_targets;
