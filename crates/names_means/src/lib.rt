// No edit writes the words that say which net has which name. Laws only, in specs/.
#![tactic(auto)]
