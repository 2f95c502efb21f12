// What the desk says at its prompt, in plain words: an answer, a filling, a refusal, how it is used. To print is all that these calls do:
// they return nothing, and are proved safe and ending.
#![tactic(auto)]

pub mod answer;
pub mod help;
pub mod reasons;
pub mod table;
