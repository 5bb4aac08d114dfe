// What the fields, the agreement and the links of an X.2 are that obey the standard as 01 reads it (01, 'X.2, fixed application'), in plain
// statements with the numbers of the page, and the theorems that the facts of each check hold exactly where they do. There is no code here.
#![tactic(auto)]
