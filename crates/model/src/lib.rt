// No code: the definitions stand in specs/, their theorems in proofs/.
#![tactic(auto)]
