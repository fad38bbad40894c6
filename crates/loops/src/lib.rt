// No code: the words that every definition of the port is written with are in specs/.
#![tactic(auto)]
