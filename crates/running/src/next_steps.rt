// Which step is made next on each course of a run, and how the run ends there.
ghost use Rattle.std.specs.Prelude.{◌*◌, ◌≤◌, ◌≡◌, length, drop};
ghost use Rattle.language.specs.Limits.{desk};
ghost use Rattle.language.specs.Trees.{Conj};
ghost use Rattle.language.specs.Writing.{conj_words};
ghost use Rattle.language.specs.Fine.{fine_conj};
ghost use Rattle.replay.specs.Replay.{triples};
ghost use Rattle.word_bytes.specs.Bytes.{words_of};
ghost use Rattle.views.specs.Standing.{Conjunction};
ghost use Rattle.counts.specs.Tables.{afresh};
ghost use Rattle.running.specs.Courses.{Guided, next_of, under_ceiling, ChosenFrom, Finishes};

use crate::moves::State;
use around::Ran;
use counts::TABLE;
use courses::Course;
use language::limits::STEPS;
use language::{Refusal, Signature};
use search::Best;
use telling::named_by;
use word_bytes::word_at;

// The bytes of a step in a trail: three words.
const STEP_BYTES: usize = 6;

// The step that was found, unless all steps are made.
fn under_ceiling(b: Best, steps: usize) -> Result<Best, Refusal>
    ensures { result ≡ under_ceiling b steps }
{
    if STEPS <= steps {
        return Err(Refusal::StepLimit);
    }
    Ok(b)
}

// The step that comes next in a trail, so many being behind.
fn told_step(
    k: &[u16],
    table: &[u16; TABLE],
    told: &[u8],
    made: usize,
    s: Signature,
) -> Result<Best, Refusal>
    requires made_in_bounds { (6 * made ≤ length told.now) × (length k.now ≤ desk.question) }
    requires conjunction { Conjunction k.now }
    requires table_value { table.now ≡ afresh k.now }
    ensures { (c : Conj) → fine_conj desk c → k.now ≡ conj_words c → result ≡ next_of s c (triples (drop (3 * made) (words_of told.now))) }
{
    if told.len() - STEP_BYTES * made < STEP_BYTES {
        return Err(Refusal::ShortTrail);
    }
    let from = 3 * made;
    let rule = word_at(told, from);
    let literal = word_at(told, from + 1);
    let side = word_at(told, from + 2);
    named_by(k, table, rule, literal, side, s)
}

// The step of this turn: that which was found, or that which the trail tells.
pub fn choose(
    k: &[u16],
    table: &[u16; TABLE],
    b: Best,
    told: &[u8],
    course: Course,
    s: State,
) -> Result<Best, Refusal>
    requires guided { Guided course told.now s.steps × (length k.now ≤ desk.question) }
    requires conjunction { Conjunction k.now }
    requires table_value { table.now ≡ afresh k.now }
    ensures { ChosenFrom k.now b told.now course s result }
{
    match course {
        Course::First => under_ceiling(b, s.steps),
        Course::Noted => under_ceiling(b, s.steps),
        Course::Told => {
            let signature = s.signature;
            told_step(k, table, told, s.steps, signature)
        }
    }
}

// Nothing waits: the run is done, unless a trail goes on.
pub fn finish(told: &[u8], course: Course, s: State) -> Result<Ran, Refusal>
    requires { Guided course told.now s.steps }
    ensures { Finishes told.now course s result }
{
    let ran = Ran {
        steps: s.steps,
        tally: s.tally,
    };
    match course {
        Course::First => Ok(ran),
        Course::Noted => Ok(ran),
        Course::Told => {
            if STEP_BYTES * s.steps < told.len() {
                return Err(Refusal::LongTrail);
            }
            Ok(ran)
        }
    }
}
