// A step leaves every net well wired with as many free ports as before: the promises `wired` and `free-kept` on steps. Laws only, in specs/.
#![tactic(auto)]
