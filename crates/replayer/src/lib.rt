// Replaying a trail on a question in two lent slices: the run that a trail tells.
#![tactic(auto)]

ghost use Rattle.std.specs.Prelude.{◌≡◌, length};
ghost use Rattle.language.specs.Limits.{desk};
ghost use Rattle.outcomes.specs.Numbers.{solved_numbers};
ghost use Rattle.replay.specs.Calls.{replaying};
ghost use Rattle.running.specs.Leaves.{told_leaves};
ghost use Rattle.word_bytes.specs.Bytes.{words_of, half_word};

use courses::Course;
use outcomes::Solved;
use running::run_course;

// Replays a trail, which is lent as its bytes since it can have any length: what comes back, and what the two lent slices then hold, is what `replaying` says of them.
pub fn replay(question: &[u16], trail: &[u8], work: &mut [u16], answer: &mut [u16]) -> Solved
    ensures { (solved_numbers result, work.new, answer.new) ≡ told_leaves (replaying desk (length work.old) (length answer.old) (half_word trail.now) (words_of trail.now) question.now) work.old answer.old }
{
    let mut unused = [0; 1];
    run_course(question, work, answer, trail, &mut unused, Course::Told)
}
