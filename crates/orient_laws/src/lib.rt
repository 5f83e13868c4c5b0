// Laws of orientation's angles: nothing to run.
#![tactic(auto)]
