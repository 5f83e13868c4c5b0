// Laws of a descriptor's histogram and of its 128 values; specs/GridRules.antt and specs/ValuesRules.antt state them. No code.
#![tactic(auto)]
