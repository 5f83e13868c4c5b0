// The sheet's ranges of bits, and the rules on floats that they render: nothing to run.
#![tactic(auto)]
