// The three demands, stated over an engine in specs/ and proved in proofs/. No function is here.
#![tactic(auto)]
