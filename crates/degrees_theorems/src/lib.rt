// Degrees of whole milliarcseconds, by theorem (02, ticket 14): they are rounded once, whole degrees are exact, they are finite and keep the
// order of the milliarcseconds, and different milliarcseconds have different degrees and different bits. There is no code here.
#![tactic(auto)]
