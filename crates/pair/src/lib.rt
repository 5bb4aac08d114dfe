// The station pair (01, 'The pair'): X.1 and X.2 held against each other, 10 to 12 in 01's table.
#![tactic(auto, unfolding(verdict::specs::Facts::first_fault))]

mod pass;
mod spots;
mod tracks;
mod verdicts;

pub use verdicts::pair_verdict;
