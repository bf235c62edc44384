// The plain engine's step serves the tapes and rows: proofs only, in proofs/. No function is here.
#![tactic(auto)]
