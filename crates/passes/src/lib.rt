// What the pass listing prints: stated over the tapes of an image in specs/, proved in proofs/. No function is here.
#![tactic(auto)]
