// The example of a line of a question, to whose lines a trail leads.
#![tactic(auto)]

ghost use Rattle.std.specs.Prelude.{◌≡◌};
ghost use Rattle.outcomes.specs.Numbers.{shown_numbers};
ghost use Rattle.trail_example.specs.Exhibits.{told_trail_exhibits};

use answer_example::show_line;
use language::Refusal;
use outcomes::Outcome;
use replayer::replay;

// The example of a line of a question, whose trail is replayed instead of solving. The trail stands in bytes, two to a word, the low one first. `old` is
// for old training sheets: free blanks then take symbol 0, and else the last declared one.
pub fn example_trail(
    question: &[u16],
    trail: &[u8],
    line: usize,
    old: bool,
    work: &mut [u16],
    answer: &mut [u16],
    room: &mut [u16],
) -> Result<usize, Refusal>
    ensures { (shown_numbers result, work.new, answer.new, room.new) ≡ told_trail_exhibits line old trail.now question.now work.old answer.old room.old }
{
    let s = replay(question, trail, work, answer);
    let outcome = s.outcome;
    if let Outcome::Refused(e) = outcome {
        return Err(e);
    }
    show_line(question, line, old, answer, room)
}
