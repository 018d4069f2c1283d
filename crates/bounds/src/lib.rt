// Bounds that every reachable cache keeps, and that the types of the code ask for; see specs/Small.antt.
#![tactic(auto)]
