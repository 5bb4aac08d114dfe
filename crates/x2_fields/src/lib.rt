// X.2's fields and agreement (01, 'X.2, fixed application': 'Fields' and 'Agreement'): checks 5 and 7 of a file whose layout was found.
// Each check gives the first fault of the facts of its part, in byte order.
#![tactic(auto, unfolding(verdict::specs::Facts::first_fault))]

mod agreement;
mod fields;
mod header;

pub use agreement::{agreement_obeys, check_agreement};
pub use fields::{check_fields, check_header};
