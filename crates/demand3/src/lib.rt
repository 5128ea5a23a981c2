// The claim of demand 3 over whole lists of calls, its proof, and 01's small boards. There is no code here.
#![tactic(auto)]
