// What the programs around the loader say on standard error (02, ticket 6).
#![tactic(auto)]

pub mod refusals;
pub mod said;
