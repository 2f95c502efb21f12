// Conjunctions that wait in a lent slice: the first at the low end, each in its frame, the last ending at word 16,383.
#![tactic(auto)]

ghost use Rattle.std.specs.Prelude.{◌+◌, ◌-◌, ◌≤◌, ◌<◌, ◌≡◌, true, ◌++◌, length, get_or};
ghost use Rattle.std.proofs.Math.Seq.{slice};
ghost use Rattle.std.proofs.lemmas.List.Edits.{sets};
ghost use Rattle.language.specs.Limits.{desk};
ghost use Rattle.language.specs.Question.{laid_out, parts};
ghost use Rattle.frames.specs.Frames.{frame, frame_of};
ghost use Rattle.waiting.specs.Waiting.{in_order, Laid};

use frames::{FRAME, write_frame};
use language::limits::ROOM;
use slices::copy;

// The part from..to as a block with that number, before those that wait from `at` on. The answer is where they now begin.
fn push(src: &[u16], from: usize, to: usize, number: u16, work: &mut [u16], at: usize) -> usize
    requires { (from ≤ to) × (to ≤ length src.now) × (to ≤ desk.question) × (to - from + frame ≤ at) × (at ≤ length work.old) }
    ensures { (result + (to - from + frame) ≡ at) × (work.new ≡ sets work.old result (frame_of (to - from) number ++ slice from to src.now)) }
{
    let n = to - from;
    let start = at - n;
    write_frame(work, start - FRAME, n, number);
    copy(src, from, to, work, start);
    start - FRAME
}

// The conjunctions of a question, waiting in order, each with its number. The answer is where they begin.
pub fn lay_out(question: &[u16], work: &mut [u16]) -> usize
    requires { (length question.now ≤ desk.question) × (laid_out 5 (get_or question.now 4 0) question.now ≡ true) × (desk.room ≤ length work.old) }
    ensures { Laid work.old result (in_order 0 (parts 5 (get_or question.now 4 0) question.now)) work.new }
{
    let n = usize::from(question[4]);
    let mut at: usize = ROOM;
    for i in (0..n).rev() {
        let from = usize::from(question[i + 5]);
        let to = usize::from(question[i + 6]);
        at = push(question, from, to, i as u16, work, at);
    }
    at
}
