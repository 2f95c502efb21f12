// What a command that was asked with a question answers in the end: the answer, or why there is none and where in the file the reason stands; and the
// status, which these calls return. To print is all else that they do, and they are proved safe and ending.
#![tactic(auto)]

ghost use Rattle.std.specs.Prelude.{◌≡◌};
ghost use Rattle.files.specs.declared.status.Status.TheVariants.{Failed};
ghost use Rattle.replies.specs.Statuses.{status_of};

use files::name_of;
use files::status::{Status, failed, found, nothing};
use language::Refusal;
use mistakes::mistake;
use outcomes::{Outcome, Solved};
use text_places::not_text;
use wording::answer::answered;
use wording::reasons::refusal;

// Says why a question is refused, and shows the word that is to blame, if one is. Its text is that of the file that argument `i` names.
pub fn refuse(rt: &HostRuntime, r: Refusal, question: &[u16], text: &[u8], i: usize) -> Status
    ensures { result ≡ Failed }
{
    refusal(rt.stderr(), r);
    if refusals::place(r) != 0 {
        name_of(rt, i);
        mistake(rt.stderr(), r, question, text);
    }
    failed()
}

// Says why a file has no question: a text that is refused, or a reason that is said already.
pub fn no_question(rt: &HostRuntime, why: Option<Refusal>, text: &[u8], i: usize) -> Status
    ensures { result ≡ Failed }
{
    if let Some(r) = why {
        refusal(rt.stderr(), r);
        if let Refusal::NotText = r {
            name_of(rt, i);
            not_text(rt.stderr(), text);
        }
    }
    failed()
}

// Says what solving came to, in these names.
pub fn solved(
    rt: &HostRuntime,
    s: Solved,
    question: &[u16],
    answer: &[u16],
    text: &[u8],
    names: &[u8],
    i: usize,
) -> Status
    ensures { result ≡ status_of s.outcome }
{
    match s.outcome {
        Outcome::Refused(r) => refuse(rt, r, question, text, i),
        Outcome::NoLine => {
            answered(
                rt.stdout(),
                "none: nothing meets the question; desk walk shows why",
                s,
                question,
                answer,
                names,
            );
            nothing()
        }
        Outcome::AllSolved => {
            answered(
                rt.stdout(),
                "settled: every line can be met",
                s,
                question,
                answer,
                names,
            );
            found()
        }
        Outcome::SomeOpen => {
            answered(
                rt.stdout(),
                "still open: there may be something that meets an open line, or nothing",
                s,
                question,
                answer,
                names,
            );
            found()
        }
    }
}
