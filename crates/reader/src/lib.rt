// Reading a question's words: its header, its offsets, its conjunctions, and which of the refusals 2 to 6 is given.
#![tactic(auto)]

ghost use Rattle.std.specs.Prelude.{◌≡◌};
ghost use Rattle.language.specs.Limits.{desk};
ghost use Rattle.language.specs.Question.{counts_fit, read_question};
ghost use Rattle.header.specs.Heading.{counts_in};
ghost use Rattle.outcomes.specs.Numbers.{checked_numbers};
ghost use Rattle.reader.specs.Checking.{asked_numbers};

use conjunctions::read_all;
use header::{Header, laid_out, read_header};
use language::Refusal;
use language::limits::{ALTERNATIVES, EACH, QUESTION};
use undeclared::find_undeclared;

// Whether the counts are in range.
fn counts_fit(h: Header) -> bool
    ensures { result ≡ counts_fit desk (counts_in h) h.alternatives }
{
    if h.symbols < 1 {
        return false;
    }
    if EACH < h.symbols {
        return false;
    }
    if h.symbols < h.unordered {
        return false;
    }
    if EACH < h.terms {
        return false;
    }
    if EACH < h.hedges {
        return false;
    }
    if EACH < h.functions {
        return false;
    }
    h.alternatives <= ALTERNATIVES
}

// Whether a question can be worked on, or which of 2 to 6 is given, and at which place: in their order, each over the whole question.
pub fn read_question(question: &[u16]) -> Result<(), Refusal>
    ensures { checked_numbers result ≡ asked_numbers (read_question desk question.now) }
{
    if question.len() < 6 {
        return Err(Refusal::QuestionLength);
    }
    if QUESTION < question.len() {
        return Err(Refusal::QuestionLength);
    }
    let h = read_header(question);
    if !counts_fit(h) {
        return Err(Refusal::CountRange);
    }
    let n = h.alternatives;
    if !laid_out(question, 5, n) {
        return Err(Refusal::BadOffset);
    }
    read_all(question, n).map_err(Refusal::NotLiterals)?;
    match find_undeclared(h, question, usize::from(n) + 6) {
        Some(at) => Err(Refusal::Undeclared(at)),
        None => Ok(()),
    }
}
