// What a refusal tells, for any list of facts: that a mark says what its fact claims, and that the place of a refusal is the lowest that
// is at fault, or the first in an order of its own. Theorems alone; there is no code here, and no program waits for them.
#![tactic(auto)]
