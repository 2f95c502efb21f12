// Solving a question in two lent slices: the run on its first course.
#![tactic(auto)]

ghost use Rattle.std.specs.Prelude.{◌≡◌, length};
ghost use Rattle.language.specs.Limits.{desk};
ghost use Rattle.rules.specs.Answer.{solving};
ghost use Rattle.outcomes.specs.Numbers.{solved_numbers};
ghost use Rattle.solver.specs.Leaves.{told_leaves};

use courses::Course;
use outcomes::Solved;
use running::run_course;

// Solves a question: what comes back, and what the two lent slices then hold, is what `solving` says of them.
pub fn solve(question: &[u16], work: &mut [u16], answer: &mut [u16]) -> Solved
    ensures { (solved_numbers result, work.new, answer.new) ≡ told_leaves (solving desk (length work.old) (length answer.old) question.now) work.old answer.old }
{
    let none = [0; 1];
    let mut unused = [0; 1];
    run_course(question, work, answer, &none, &mut unused, Course::First)
}
