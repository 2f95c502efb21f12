// What the overlap desk promises has no code of its own: theorems over the contracts of its calls.
#![tactic(auto)]
