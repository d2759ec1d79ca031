// Lists that keep their books: how many entries are live and how many stale. Laws only, in specs/.
#![tactic(auto)]
