// A day's sheets have no code here: their layout and what answering one comes to, and theorems over these definitions.
#![tactic(auto)]
