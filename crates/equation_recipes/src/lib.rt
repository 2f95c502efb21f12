// The plans of the rules of equations have no code here: what they are, and that they make the results of their rules.
#![tactic(auto)]
