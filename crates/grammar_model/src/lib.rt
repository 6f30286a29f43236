// Grammars over lists of tokens: the ways to build forms in specs/, and their laws in proofs/.
// There is no code.
#![tactic(auto)]
