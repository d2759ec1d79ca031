// Levels Graph and Engine: definitions only. What the engine must do stands in specs/.
#![tactic(auto)]
