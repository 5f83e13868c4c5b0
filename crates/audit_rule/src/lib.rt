// The checker of a sheet: its rule is in specs/, and the laws that it keeps in proofs/. There is no code.
#![tactic(auto)]
