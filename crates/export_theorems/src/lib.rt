// The C library by theorem: every value that it lays in four bytes comes back from them, and degrees from eight; every answer can be taken
// apart. There is no code here.
#![tactic(auto)]
