// No code: what demand 3 says of every list of calls on the two lent areas is in specs/.
#![tactic(auto)]
