// What is demanded of the desk has no code of its own: theorems over the contracts of its calls.
#![tactic(auto)]
