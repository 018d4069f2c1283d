// No code: calls in a row, said of the topic cache's code.
#![tactic(auto)]
