// Laws of ports and of linking: what rewiring one port changes, and that a link keeps a wiring. Laws only, in specs/.
#![tactic(auto)]
