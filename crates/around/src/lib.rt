// What comes before a run and after it.
#![tactic(auto)]

ghost use Rattle.std.specs.Prelude.{◌≤◌, ◌≡◌, length, replicate};
ghost use Rattle.language.specs.Limits.{desk};
ghost use Rattle.language.specs.Question.{read_question};
ghost use Rattle.around.specs.Told.{refused_by, verdict_for, told_by};
ghost use Rattle.around.specs.Ready.{readied};
ghost use Rattle.around.specs.Rooms.{Settles};

use answers::Tally;
use language::Refusal;
use language::limits::ROOM;
use outcomes::{Outcome, Solved};
use reader::read_question;
use slices::clear;

// What a run that no refusal stopped comes to: the steps made and the lines.
#[derive(Clone, Copy)]
pub struct Ran {
    pub steps: usize,
    pub tally: Tally,
}

// A refusal reports 0 for all three.
pub fn refused(r: Refusal) -> Solved
    ensures { result ≡ refused_by r }
{
    Solved {
        outcome: Outcome::Refused(r),
        lines: 0,
        open: 0,
        steps: 0,
    }
}

// None, all solved, some open.
fn verdict_of(t: Tally) -> Outcome
    ensures { result ≡ verdict_for t.lines t.«open» }
{
    if t.lines == 0 {
        return Outcome::NoLine;
    }
    if 0 < t.open {
        return Outcome::SomeOpen;
    }
    Outcome::AllSolved
}

// What a run that came to this is told as. The work slice is cleared, and after a refusal the answer slice too.
pub fn tell(ran: Result<Ran, Refusal>, work: &mut [u16], answer: &mut [u16]) -> Solved
    requires { (desk.room ≤ length work.old) × (desk.room ≤ length answer.old) }
    ensures { (result, work.new, answer.new) ≡ told_by ran work.old answer.old }
{
    clear(work);
    match ran {
        Ok(r) => {
            let t = r.tally;
            let outcome = verdict_of(t);
            Solved {
                outcome,
                lines: t.lines,
                open: t.open,
                steps: r.steps,
            }
        }
        Err(e) => {
            clear(answer);
            refused(e)
        }
    }
}

// Whether a run can begin, with slices of so many words.
pub fn ready(question: &[u16], work: usize, answer: usize) -> Result<(), Refusal>
    ensures { result ≡ readied work answer (read_question desk question.now) }
{
    if work < ROOM {
        return Err(Refusal::ShortSlice);
    }
    if answer < ROOM {
        return Err(Refusal::ShortSlice);
    }
    read_question(question)
}

// Zeros in all words.
fn wipe(s: &mut [u16])
    ensures { s.new ≡ replicate (length s.old) 0 }
{
    for i in 0..s.len() {
        s[i] = 0;
    }
}

// After a refusal the room is cleared.
pub fn settle(ran: Result<Ran, Refusal>, out: &mut [u16])
    ensures { Settles ran out.old out.new }
{
    if ran.is_err() {
        wipe(out);
    }
}
