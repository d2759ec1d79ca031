// The script rules on the words do what level Engine's `act` does: a visit's rules for real. Laws only, in specs/.
#![tactic(auto)]
