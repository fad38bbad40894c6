// No code: the worked cases are in specs/.
#![tactic(auto)]
