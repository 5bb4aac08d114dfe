// The plan by theorem, over every file, plan and question: what the numbers of a comparison count, that none is missing and none extra
// exactly where the plan has the legal routes, and that a plan read line by line has whole routes, none twice. There is no code here.
#![tactic(auto)]
