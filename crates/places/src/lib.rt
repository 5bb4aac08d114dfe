// How far the place of a refusal reaches: every place of every verdict and every question, refused files too, is below one small number, so
// that it fits into the C library's answer. Theorems alone; there is no code here.
#![tactic(auto)]
