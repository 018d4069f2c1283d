// No code: what the Rust does stands in specs/, that the port's model does the same on the common ground in proofs/.
#![tactic(auto)]
