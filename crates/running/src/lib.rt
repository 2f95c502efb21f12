// The run of a question in lent slices, on one of three courses, and what is told of it.
#![tactic(auto)]

mod moves;
mod next_steps;
mod turns;

ghost use Rattle.std.specs.Prelude.{◌≡◌, length};
ghost use Rattle.language.specs.Limits.{desk};
ghost use Rattle.language.specs.Question.{read_question};
ghost use Rattle.outcomes.specs.Numbers.{solved_numbers};
ghost use Rattle.replay.specs.Calls.{trail_of, trail_leaves};
ghost use Rattle.running.specs.Leaves.{told_leaves};
ghost use Rattle.running.specs.Calling.{calling, notes};

use crate::turns::run;
use around::{ready, refused, settle, tell};
use courses::Course;
use outcomes::Solved;

// Runs a question on a course, `told` being the bytes of the trail to follow and `out` the room for one to be noted: what comes back, and what the three slices then hold, is what the course's definition says.
pub fn run_course(
    question: &[u16],
    work: &mut [u16],
    answer: &mut [u16],
    told: &[u8],
    out: &mut [u16],
    course: Course,
) -> Solved
    ensures answer_after { (solved_numbers result, work.new, answer.new) ≡ told_leaves (calling course told.now (length work.old) (length answer.old) (length out.old) question.now) work.old answer.old }
    ensures out_after { out.new ≡ trail_leaves (calling course told.now (length work.old) (length answer.old) (length out.old) question.now) (notes course (trail_of desk (read_question desk question.now))) out.old }
{
    match ready(question, work.len(), answer.len()) {
        Ok(()) => {
            let ran = run(question, work, answer, told, out, course);
            settle(ran, out);
            tell(ran, work, answer)
        }
        Err(r) => refused(r),
    }
}
