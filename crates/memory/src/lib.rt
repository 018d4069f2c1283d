// No code: what lies in memory for a cache of the model.
#![tactic(auto)]
