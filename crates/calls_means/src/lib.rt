// Begin, slice and finish as calls of their own on words and bytes are level Engine's: what they answer, write and leave. Laws only, in specs/.
#![tactic(auto)]
