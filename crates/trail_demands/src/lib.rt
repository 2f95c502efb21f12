// What is demanded of the calls with a trail has no code of its own: theorems over their contracts.
#![tactic(auto)]
