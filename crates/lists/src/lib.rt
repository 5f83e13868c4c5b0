// Definitions and laws over lists, for contracts and loops: nothing to run.
#![tactic(auto)]
