// Theorems about the loader (02, ticket 6); there is no code here.
#![tactic(auto)]
