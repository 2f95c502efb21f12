// An expression's words from its bytes, the last byte first, has no code yet: definitions and their laws.
#![tactic(auto)]
