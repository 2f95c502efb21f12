// One named step of one conjunction, for whoever walks through an answer step by step.
#![tactic(auto)]

ghost use Rattle.std.specs.Prelude.{◌≤◌, ◌≡◌, length};
ghost use Rattle.language.specs.Limits.{desk};
ghost use Rattle.language.specs.Trees.{Conj};
ghost use Rattle.language.specs.Writing.{conj_words};
ghost use Rattle.language.specs.Fine.{fine_conj};
ghost use Rattle.views.specs.Standing.{Conjunction};
ghost use Rattle.telling.specs.Telling.{triple_of};
ghost use Rattle.named_steps.specs.Naming.{named_at, naming};
ghost use Rattle.named_steps.specs.Leaves.{Leaves, leaves};

use header::read_header;
use language::limits::ROOM;
use language::{Refusal, Signature};
use reader::read_question;
use slices::clear;
use steps::take_step;
use telling::named_step;

// The step of these three words, its results at the end of the room; the answer is where they begin.
fn make_step(
    k: &[u16],
    s: Signature,
    number: u16,
    rule: u16,
    literal: u16,
    side: u16,
    work: &mut [u16],
) -> Result<usize, Refusal>
    requires k_len_bound { (length k.now ≤ desk.question) × (desk.room ≤ length work.old) }
    requires conjunction { Conjunction k.now }
    ensures { (c : Conj) → fine_conj desk c → k.now ≡ conj_words c → Leaves number (named_at desk number s (triple_of rule literal side) c) work.old result work.new }
{
    let b = named_step(k, rule, literal, side, s)?;
    take_step(k, b, s, number, work, ROOM)
}

// The words of a question of one conjunction stand behind its header and its two offsets.
const BODY: usize = 7;

// Makes one named step of a question of one conjunction. What comes back, where the results begin or why there are none, and what the lent slice then holds, is what `naming` says of them.
pub fn step_named(
    question: &[u16],
    number: u16,
    rule: u16,
    literal: u16,
    side: u16,
    work: &mut [u16],
) -> Result<usize, Refusal>
    ensures { (result, work.new) ≡ leaves number (naming desk (length work.old) number (triple_of rule literal side) question.now) work.old }
{
    if work.len() < ROOM {
        return Err(Refusal::ShortSlice);
    }
    match read_question(question) {
        Err(r) => Err(r),
        Ok(()) => {
            let h = read_header(question);
            if h.alternatives != 1 {
                return Err(Refusal::CountRange);
            }
            let s = Signature {
                symbols: h.symbols,
                unordered: h.unordered,
            };
            clear(work);
            make_step(&question[BODY..], s, number, rule, literal, side, work)
        }
    }
}
