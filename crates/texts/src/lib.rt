// Reading and writing a text has no code here: the definitions and their theorems.
#![tactic(auto)]
