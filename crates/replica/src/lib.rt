// Demand 3 over lists: the machine, the rule and their theorem are in specs/ and proofs/; there is no code here.

#![tactic(auto)]
