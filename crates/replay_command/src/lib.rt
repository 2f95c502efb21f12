// A trail from a file replayed. The command prints, and returns its status.
#![tactic(auto)]

ghost use Rattle.std.specs.Prelude.{◌≤◌, length};

use files::status::{Status, failed};
use files::{Loaded, SHEET, TOO_MANY, load, load_question};
use language::Refusal;
use language::limits::{QUESTION, ROOM};
use outcomes::{Outcome, Solved};
use replayer::replay;
use replies::{no_question, refuse, solved};
use word_bytes::write_words;
use wording::reasons::refusal;

// The words of a step.
const TRIPLE: usize = 3;

// As many words as a text of 65,535 bytes can have.
const TOLD: usize = 32768;

// Whether a trail has a step that does not apply.
fn is_wrong(question: &[u16], told: &[u8]) -> bool {
    let mut work = [0u16; ROOM];
    let mut answer = [0u16; ROOM];
    let s = replay(question, told, &mut work, &mut answer);
    matches!(s.outcome, Outcome::Refused(Refusal::BadStep))
}

// The same of its first so many steps.
fn begins_wrong(question: &[u16], told: &[u8], steps: usize) -> bool {
    if told.len() / (2 * TRIPLE) < steps {
        return true;
    }
    is_wrong(question, &told[0..2 * TRIPLE * steps])
}

// So many first steps of a trail apply, and of so many one does not.
#[derive(Clone, Copy)]
struct Between {
    right: usize,
    wrong: usize,
}

// Half of the steps between them tried.
fn halved(question: &[u16], told: &[u8], b: Between) -> Between {
    if b.wrong <= b.right {
        return b;
    }
    let middle = b.right + (b.wrong - b.right) / 2;
    if middle == b.right {
        return b;
    }
    if begins_wrong(question, told, middle) {
        return Between {
            right: b.right,
            wrong: middle,
        };
    }
    Between {
        right: middle,
        wrong: b.wrong,
    }
}

// A text has fewer steps than so many halvings leave one of.
const HALVINGS: usize = 16;

// The first step that does not apply, from 1, of a trail that has one.
fn wrong_step(question: &[u16], told: &[u8]) -> usize {
    let mut b = Between {
        right: 0,
        wrong: told.len() / (2 * TRIPLE),
    };
    for _ in 0..HALVINGS {
        b = halved(question, told, b);
    }
    b.wrong
}

// Why a trail is refused, and at which step, where that is known.
fn denied(
    rt: &HostRuntime,
    r: Refusal,
    question: &[u16],
    told: &[u8],
    text: &[u8],
    i: usize,
) -> Status {
    match r {
        Refusal::BadStep => {
            refusal(rt.stderr(), r);
            let n = wrong_step(question, told);
            let _ = eprintln!(rt; "It is step {n}.");
            failed()
        }
        Refusal::ShortTrail => {
            refusal(rt.stderr(), r);
            let n = told.len() / (2 * TRIPLE);
            let _ = eprintln!(rt; "Its whole steps are {n}.");
            failed()
        }
        _ => refuse(rt, r, question, text, i),
    }
}

fn replayed(
    rt: &HostRuntime,
    s: Solved,
    question: &[u16],
    answer: &[u16],
    told: &[u8],
    text: &[u8],
    names: &[u8],
    i: usize,
) -> Status {
    if let Outcome::Refused(r) = s.outcome {
        return denied(rt, r, question, told, text, i);
    }
    solved(rt, s, question, answer, text, names, i)
}

fn replay_words(
    rt: &HostRuntime,
    question: &[u16],
    told: &[u8],
    text: &[u8],
    names: &[u8],
    i: usize,
) -> Status {
    let mut work = [0u16; ROOM];
    let mut answer = [0u16; ROOM];
    let s = replay(question, told, &mut work, &mut answer);
    replayed(rt, s, question, &answer, told, text, names, i)
}

// Replays a trail's words, as the bytes that they are.
fn replay_told(
    rt: &HostRuntime,
    question: &[u16],
    trail: &[u16],
    text: &[u8],
    names: &[u8],
    i: usize,
) -> Status
    requires { length trail.now ≤ 32768 }
{
    let mut told = [0u8; 2 * TOLD];
    write_words(trail, &mut told);
    let n = 2 * trail.len();
    replay_words(rt, question, &told[0..n], text, names, i)
}

// Replays the trail of the file that argument `j` names.
fn replay_trail(
    rt: &HostRuntime,
    question: &[u16],
    buf: &[u8],
    t: Loaded,
    i: usize,
    j: usize,
) -> Status
    requires { (t.bytes ≤ length buf.now) × (t.named ≤ length buf.now) }
{
    let mut trail = [0u8; TOO_MANY];
    let mut words = [0u16; TOLD];
    match load(rt, j, &mut trail, &mut words) {
        Ok(told) => replay_told(
            rt,
            question,
            &words[0..told.words],
            &buf[0..t.bytes],
            &buf[0..t.named],
            i,
        ),
        Err(_) => failed(),
    }
}

// The answer that the trail in the file of argument `j` leads to, of the question in the file that argument `i` names.
pub fn replay_file(rt: &HostRuntime, i: usize, j: usize) -> Status {
    let mut buf = [0u8; SHEET];
    let mut words = [0u16; 2 * QUESTION];
    match load_question(rt, i, &mut buf, &mut words) {
        Ok(t) => replay_trail(rt, &words[0..t.words], &buf, t, i, j),
        Err(u) => no_question(rt, u.refusal, &buf[0..u.bytes], i),
    }
}
