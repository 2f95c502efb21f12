// The walk of two expressions has no code here: theorems over its definition, which stands with the rules.
#![tactic(auto)]
