// A question's trail: walked through, or written. The commands print, and return their status.
#![tactic(auto)]

ghost use Rattle.std.specs.Prelude.{◌≤◌, length};

use files::status::{Status, found, nothing};
use files::{Loaded, SHEET, load_question};
use language::limits::{QUESTION, ROOM, STEPS};
use outcomes::{Outcome, Solved};
use replies::{no_question, refuse};
use trails::solve_trail;
use walks::{walk, write_trail};

// The words of a step, and those of the longest trail that is written.
const TRIPLE: usize = 3;

const TRAIL: usize = TRIPLE * STEPS;

// The words of so many steps.
fn first_steps(trail: &[u16], steps: usize) -> &[u16] {
    if trail.len() / TRIPLE < steps {
        return trail;
    }
    &trail[0..TRIPLE * steps]
}

// Walks through an answer; its status is that of solving.
fn walked(
    rt: &HostRuntime,
    s: Solved,
    question: &[u16],
    answer: &[u16],
    trail: &[u16],
    text: &[u8],
    names: &[u8],
    i: usize,
) -> Status {
    if let Outcome::Refused(r) = s.outcome {
        return refuse(rt, r, question, text, i);
    }
    walk(
        rt.stdout(),
        question,
        answer,
        first_steps(trail, s.steps),
        names,
    );
    match s.outcome {
        Outcome::NoLine => nothing(),
        _ => found(),
    }
}

// Writes a trail's words.
fn written(
    rt: &HostRuntime,
    s: Solved,
    question: &[u16],
    trail: &[u16],
    text: &[u8],
    i: usize,
) -> Status {
    match s.outcome {
        Outcome::Refused(r) => refuse(rt, r, question, text, i),
        _ => {
            write_trail(rt.stdout(), first_steps(trail, s.steps));
            found()
        }
    }
}

// The trail of a question, walked through or alone.
fn with_trail(
    rt: &HostRuntime,
    question: &[u16],
    walks: bool,
    buf: &[u8],
    t: Loaded,
    i: usize,
) -> Status
    requires { (t.bytes ≤ length buf.now) × (t.named ≤ length buf.now) }
{
    let mut work = [0u16; ROOM];
    let mut answer = [0u16; ROOM];
    let mut trail = [0u16; TRAIL];
    let s = solve_trail(question, &mut work, &mut answer, &mut trail);
    if walks {
        return walked(
            rt,
            s,
            question,
            &answer,
            &trail,
            &buf[0..t.bytes],
            &buf[0..t.named],
            i,
        );
    }
    written(rt, s, question, &trail, &buf[0..t.bytes], i)
}

// The trail of the question in the file that argument `i` names, walked through or alone.
fn with_question(rt: &HostRuntime, walks: bool, i: usize) -> Status {
    let mut buf = [0u8; SHEET];
    let mut words = [0u16; 2 * QUESTION];
    match load_question(rt, i, &mut buf, &mut words) {
        Ok(t) => with_trail(rt, &words[0..t.words], walks, &buf, t, i),
        Err(u) => no_question(rt, u.refusal, &buf[0..u.bytes], i),
    }
}

// Every step of the answer of the question in the file that argument `i` names.
pub fn walk_file(rt: &HostRuntime, i: usize) -> Status {
    with_question(rt, true, i)
}

// The steps alone.
pub fn trail_file(rt: &HostRuntime, i: usize) -> Status {
    with_question(rt, false, i)
}
