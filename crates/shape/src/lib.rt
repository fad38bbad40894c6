// No code: the theorems about the shape of T are in proofs/, over the definition of a run.
#![tactic(auto)]
