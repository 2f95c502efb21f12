// What the calls answer with, and the numbers of each answer.
#![tactic(auto)]

ghost use Rattle.std.specs.Prelude.{◌≡◌};
ghost use Rattle.outcomes.specs.Numbers.{checked_number, outcome_number, tried_number, tried_value, shown_number, shown_length};

use language::Refusal;
use refusals::number;

// The number that comes back for reading a question or a filling: 0 for words that are not refused.
pub fn verdict_number(verdict: Result<(), Refusal>) -> u16
    ensures { result ≡ checked_number verdict }
{
    match verdict {
        Ok(()) => 0,
        Err(mistake) => number(mistake),
    }
}

// "Solving returns the refusal or (none, all solved, some open)."
#[derive(Clone, Copy)]
pub enum Outcome {
    Refused(Refusal),
    NoLine,
    AllSolved,
    SomeOpen,
}

// What comes back from solving.
#[derive(Clone, Copy)]
pub struct Solved {
    pub outcome: Outcome,
    pub lines: usize,
    pub open: usize,
    pub steps: usize,
}

// The number that comes back: the refusal's, or 0.
pub fn outcome_number(outcome: Outcome) -> u16
    ensures { result ≡ outcome_number outcome }
{
    match outcome {
        Outcome::Refused(r) => number(r),
        Outcome::NoLine => 0,
        Outcome::AllSolved => 0,
        Outcome::SomeOpen => 0,
    }
}

// Trying a filling answers whether it meets the question, or why that is refused. The number in the table, 0 for none.
pub fn tried_number(tried: Result<bool, Refusal>) -> u16
    ensures { result ≡ tried_number tried }
{
    match tried {
        Ok(_yes) => 0,
        Err(refusal) => number(refusal),
    }
}

// 1 for yes, and else 0.
pub fn tried_value(tried: Result<bool, Refusal>) -> u16
    ensures { result ≡ tried_value tried }
{
    match tried {
        Ok(true) => 1,
        Ok(false) => 0,
        Err(_refusal) => 0,
    }
}

// Showing an example answers the length of the filling that the room holds, or why there is none. The number in the table, 0 for a filling.
pub fn shown_number(shown: Result<usize, Refusal>) -> u16
    ensures { result ≡ shown_number shown }
{
    match shown {
        Ok(_length) => 0,
        Err(e) => number(e),
    }
}

// The filling's length, 0 for a refusal.
pub fn shown_length(shown: Result<usize, Refusal>) -> usize
    ensures { result ≡ shown_length shown }
{
    match shown {
        Ok(n) => n,
        Err(_) => 0,
    }
}
