// The example of a line of a question, which is solved anew.
#![tactic(auto)]

ghost use Rattle.std.specs.Prelude.{◌≡◌};
ghost use Rattle.outcomes.specs.Numbers.{shown_numbers};
ghost use Rattle.example.specs.Exhibits.{told_exhibits};

use answer_example::show_line;
use language::Refusal;
use outcomes::Outcome;
use solver::solve;

// The example of a line of a question, which is solved anew. `old` is for old training sheets: free blanks then take symbol 0, and else the last
// declared one.
pub fn example(
    question: &[u16],
    line: usize,
    old: bool,
    work: &mut [u16],
    answer: &mut [u16],
    room: &mut [u16],
) -> Result<usize, Refusal>
    ensures { (shown_numbers result, work.new, answer.new, room.new) ≡ told_exhibits line old question.now work.old answer.old room.old }
{
    let s = solve(question, work, answer);
    let outcome = s.outcome;
    if let Outcome::Refused(e) = outcome {
        return Err(e);
    }
    show_line(question, line, old, answer, room)
}
