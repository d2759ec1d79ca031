// The rule graft on the words does what level Engine says: tests, copies, joins, waits and refusals. Laws only, in specs/.
#![tactic(auto)]
