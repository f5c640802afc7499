// Theory only: the linear algebra behind the solver's three answers. Its definitions are in specs/, its theorems in proofs/.
#![tactic(auto)]
