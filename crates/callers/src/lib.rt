// The three demands of what a caller calls: the engines on a session in lent bytes. Stated in specs/, proved in proofs/. No function is here.
#![tactic(auto)]
