// What words mean while waits are under way: all of an engine but its waits. Laws only, in specs/.
#![tactic(auto)]
