// What an X.1 is that obeys the standard as 01 reads it (01, 'X.1, track geography'), in plain statements with the numbers of the page, and the
// theorem that a file is accepted exactly where it does. There is no code here.
#![tactic(auto)]
