// Routes read backwards, by theorem (02, ticket 13): in an accepted file a route from one boundary to another is, reversed, a route back, and of
// two listings by one limit that are not refused the one has it exactly when the other has its reverse. There is no code here.
#![tactic(auto)]
