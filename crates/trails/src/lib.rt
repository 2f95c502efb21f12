// Solving a question with a trail, which is written in a room lent for it: the run that notes its steps.
#![tactic(auto)]

ghost use Rattle.std.specs.Prelude.{◌≡◌, length};
ghost use Rattle.language.specs.Limits.{desk};
ghost use Rattle.language.specs.Question.{read_question};
ghost use Rattle.outcomes.specs.Numbers.{solved_numbers};
ghost use Rattle.replay.specs.Calls.{solving_trail, trail_of, trail_leaves};
ghost use Rattle.running.specs.Leaves.{told_leaves};

use courses::Course;
use outcomes::Solved;
use running::run_course;

// Solves a question and writes its trail: what comes back, and what the slices and the room then hold, is what `solving_trail` says of them.
pub fn solve_trail(
    question: &[u16],
    work: &mut [u16],
    answer: &mut [u16],
    trail: &mut [u16],
) -> Solved
    ensures { ((solved_numbers result, work.new, answer.new) ≡ told_leaves (solving_trail desk (length work.old) (length answer.old) (length trail.old) question.now) work.old answer.old) × (trail.new ≡ trail_leaves (solving_trail desk (length work.old) (length answer.old) (length trail.old) question.now) (trail_of desk (read_question desk question.now)) trail.old) }
{
    let none = [0; 1];
    run_course(question, work, answer, &none, trail, Course::Noted)
}
