// No code: that the model's cache and the cache on numbers are the same, in specs/.
#![tactic(auto)]
