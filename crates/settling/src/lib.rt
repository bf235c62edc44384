// The buffered engine's step, with every held buffer laid back, is the plain engine's: proofs only, in proofs/. No function is here.
#![tactic(auto)]
