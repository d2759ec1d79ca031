// Each of the five rules' scripts uses each port of its dead and new nodes once, so a step leaves the nets well wired. Laws only, in specs/.
#![tactic(auto)]
