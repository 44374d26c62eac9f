// The demands on the library as theorems over the definitions of the crates below. No code: the statements are in specs/, one module for each
// demand, and their proofs in proofs/.
#![tactic(auto)]
