// The traced examples P1 to P11 of the scope paper, computed from the definitions. No code.
#![tactic(auto)]
