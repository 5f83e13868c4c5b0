// The marked examples that are proved, as a table: nothing to run. `run_examples` runs them, and the others.
#![tactic(auto)]
