// The three demands of the request, clause by clause: specs/ says what is claimed of the proved functions, proofs/ why it follows from their contracts.
#![tactic(auto)]
