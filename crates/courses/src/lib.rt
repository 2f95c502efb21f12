// The three courses of a run, and a step made on each: counted, and noted where steps are.
#![tactic(auto)]

ghost use Rattle.std.specs.Prelude.{◌+◌, ◌≤◌, ◌<◌, ◌≡◌, length};
ghost use Rattle.language.specs.Limits.{desk};
ghost use Rattle.views.specs.Standing.{SomeLiteral};
ghost use Rattle.courses.specs.Steps.{Below, Roomy, NotedStep};

use literals::literal_number;
use noting::note_step;
use search::Best;

// The first step that applies; the same, noted in a trail; or what a trail tells.
#[derive(Clone, Copy)]
pub enum Course {
    First,
    Noted,
    Told,
}

// The steps made, with this one.
pub fn one_more(told: &[u8], course: Course, steps: usize) -> usize
    requires { Below course told.now steps }
    ensures { result ≡ steps + 1 }
{
    match course {
        Course::First => steps + 1,
        Course::Noted => steps + 1,
        Course::Told => steps + 1,
    }
}

// Notes the step, where steps are noted; whether there was room for it.
pub fn note(k: &[u16], b: Best, made: usize, out: &mut [u16], course: Course) -> bool
    requires at_in_bounds { (b.at < length k.now) × (length k.now ≤ desk.question) × Roomy course b made out.old }
    requires some_literal { SomeLiteral k.now b.at }
    ensures { NotedStep k.now b made course out.old result out.new }
{
    match course {
        Course::First => true,
        Course::Noted => {
            let n = literal_number(k, b.at);
            note_step(out, made, b.rank, n, b.swap)
        }
        Course::Told => true,
    }
}
