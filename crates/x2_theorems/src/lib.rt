// X.2 by theorem, over every byte string: which number is answered and where, why, what each question answers, and how far its values
// reach. specs/LayoutFaults, FieldFaults and LinkFaults say of the bytes alone, in 01's words, what is at fault; specs/Checks puts them
// in 01's order. There is no code here.
#![tactic(auto)]
