// The order of floats by their bits: nothing to run.
#![tactic(auto)]
