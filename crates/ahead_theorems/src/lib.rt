// Theorems on what lies ahead (02, ticket 9); no code. The list that is answered is what lies ahead by the ticket's words, and no other list is; why
// it stops, and exactly when; it has at most 64 objects and none twice, and it is a legal way by 01's rules of routes; and which refusal is answered,
// exactly when.
#![tactic(auto)]
