// The worked examples that 01 marks P ('Yard examples'), as one table under one statement, yard Y and its variants judged, and yard Y read both
// ways (02, ticket 13). Theorems alone; there is no code here.
#![tactic(auto)]
