// A run under way in two lent slices, and a line more in it.
ghost use Rattle.std.specs.Prelude.{ℕ, ◌+◌, ◌≤◌, ◌≡◌, List, ◌∷◌, length};
ghost use Rattle.language.specs.Limits.{desk};
ghost use Rattle.language.specs.Writing.{conj_words};
ghost use Rattle.rules.specs.Run.{Numbered};
ghost use Rattle.frames.specs.Frames.{frame};
ghost use Rattle.views.specs.Standing.{Conjunction};
ghost use Rattle.counts.specs.Tables.{afresh};
ghost use Rattle.running.specs.Running.{Running, Lines};

use answers::{LINE_HEAD, Tally, add_line};
use counts::TABLE;
use language::limits::{LINES, ROOM};
use language::{Refusal, Signature};
use solved::is_solved;

// Where the waiting conjunctions begin, the steps made, and the lines; and the question's signature, which stays.
#[derive(Clone, Copy)]
pub struct State {
    pub at: usize,
    pub steps: usize,
    pub tally: Tally,
    pub signature: Signature,
}

// k, which is of that alternative and has these counts, becomes the next line, and `next` is where those that wait then begin.
pub fn line(
    k: &[u16],
    table: &[u16; TABLE],
    number: u16,
    next: usize,
    answer: &mut [u16],
    s: State,
) -> Result<State, Refusal>
    requires k_len_bound { (length k.now ≤ desk.question) × (s.tally.«open» ≤ s.tally.lines) × (s.tally.end ≤ desk.room) × (desk.room ≤ length answer.old) }
    requires conjunction { Conjunction k.now }
    requires table_value { table.now ≡ afresh k.now }
    ensures { (old_work old_answer : List ℕ) (ls : List Numbered) (c : Numbered) (w : List Numbered) (work : List ℕ) → Running old_work old_answer ls (c ∷ w) s work answer.old → k.now ≡ conj_words c.literals → number ≡ c.number → next ≡ s.at + frame + length k.now → Lines old_work old_answer ls c w s result work answer.new }
{
    let t = s.tally;
    if LINES <= t.lines {
        return Err(Refusal::LineRoom);
    }
    if ROOM < t.end + LINE_HEAD + k.len() {
        return Err(Refusal::LineRoom);
    }
    let solved = is_solved(k, table);
    let u = add_line(k, number, solved, t, answer);
    let signature = s.signature;
    Ok(State {
        at: next,
        steps: s.steps,
        tally: u,
        signature,
    })
}
