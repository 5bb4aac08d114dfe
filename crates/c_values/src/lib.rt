// What crosses to C: the one number that a question returns, and values as four bytes each (`include/yard.h`).
#![tactic(auto)]

pub mod load;
pub mod seen;
pub mod values;
pub mod words;
