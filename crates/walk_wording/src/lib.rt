// What the desk says at its prompt of a walk through an answer, in plain words: the rules by their names, a sentence for each of them, and how a branch
// ends. To print is all that these calls do: they return nothing, and are proved safe and ending.
#![tactic(auto)]

mod names;
mod reasons;
pub mod rows;
mod sentences;

// A step of a conjunction's words: the rule's place in the list, the place of the literal's first word, whether its sides are swapped, and how many
// results there are.
// kept: `swap` says which side is meant, and nothing here may be missing
#[derive(Clone, Copy)]
pub struct Act {
    pub rule: usize,
    pub at: usize,
    pub swap: bool,
    pub cases: usize,
}
