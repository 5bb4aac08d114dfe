// Routes by theorem, over every byte string and every question: which of the five answers it is, and that a listing has every legal route
// once, in order, and nothing else. There is no code here.
#![tactic(auto)]
