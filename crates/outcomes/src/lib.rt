// No code: the matrices with known outcomes are in specs/.
#![tactic(auto)]
