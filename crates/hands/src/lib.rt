// A chain in hand, beside the chains of a pool's nets and its free places. Laws only, in specs/.
#![tactic(auto)]
