// No code: the demands, said of the code.
#![tactic(auto)]
