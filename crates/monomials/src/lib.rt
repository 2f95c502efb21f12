// The linear form laid open has no code of its own: what the words of its rests are, and that they are those of the rules.
#![tactic(auto)]
