// The pair by theorem, over every two byte strings: which number is answered, where, of which file, and why. specs/Faults says it of the
// bytes alone, in 01's words; there is no code here.
#![tactic(auto)]
