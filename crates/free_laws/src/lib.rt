// What `free_path` and `rule_names` answer means. Definitions and laws only, in specs/.
#![tactic(auto)]
