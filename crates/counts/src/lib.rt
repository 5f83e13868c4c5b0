// Counting numbers of a range that pass a test: nothing to run.
#![tactic(auto)]
