// What is demanded of the calls on texts has no code of its own: theorems over their contracts.
#![tactic(auto)]
