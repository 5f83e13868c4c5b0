// Laws of rounding; specs/ states them. No code.
#![tactic(auto)]
