// The three promises on one page: what a buyer's reviewer reads first. There is no code here; specs/Demands states each promise as what
// it needs, and proofs/Kept proves it by citing the theorems of the crates below.
#![tactic(auto)]
