// Theory only: what demand 3 promises of calls of `solve`, of `encode` and of the intake, from their contracts alone. Its words are in specs/, its theorems
// in proofs/.
#![tactic(auto)]
