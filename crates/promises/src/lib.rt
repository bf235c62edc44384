// What is promised besides the three demands, stated over an engine in specs/ and proved in proofs/: the blocking buffer, the sectors that are
// written, that reading changes no byte, granules, ADD and DELETE. No function is here.
#![tactic(auto)]
