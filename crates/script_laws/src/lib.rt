// Laws of scripts: each port of a removed and of a new node is used once, so a script leaves the nets well wired. Laws only, in specs/.
#![tactic(auto)]
