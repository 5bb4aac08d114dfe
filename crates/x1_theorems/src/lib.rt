// X.1 by theorem, over every byte string: which number is answered and where, why, what each question answers, and how far its values
// reach. specs/Faults and specs/Asked say it of the bytes alone, in 01's words; there is no code here.
#![tactic(auto)]
