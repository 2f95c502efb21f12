// Where a loop over a side or an expression stands.
#![tactic(auto)]

// Behind a bracket that opened; where an element has to begin; behind a functor; behind an element.
#[derive(Clone, Copy)]
pub enum State {
    Opened,
    Wanted,
    Named,
    Ready,
}
