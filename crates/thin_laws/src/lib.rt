// Laws of even cover: nothing to run.
#![tactic(auto)]
