// A filling tried. The command prints, and returns its status.
#![tactic(auto)]

use files::status::{Status, failed, found, nothing};
use files::{TOO_MANY, load, load_question};
use language::Refusal;
use language::limits::{FILLING, QUESTION, ROOM};
use print::say;
use replies::{no_question, refuse};

fn tell(
    rt: &HostRuntime,
    t: Result<bool, Refusal>,
    question: &[u16],
    text: &[u8],
    i: usize,
) -> Status {
    match t {
        Ok(true) => {
            say(rt.stdout(), b"yes: the filling meets the question\n");
            found()
        }
        Ok(false) => {
            say(rt.stdout(), b"no: the filling does not meet the question\n");
            nothing()
        }
        Err(r) => refuse(rt, r, question, text, i),
    }
}

fn attempt(rt: &HostRuntime, question: &[u16], values: &[u16], text: &[u8], i: usize) -> Status {
    let mut work = [0u16; ROOM];
    let t = trying::try_filling(question, values, &mut work);
    tell(rt, t, question, text, i)
}

// Whether the filling that argument `j` names meets the question.
fn try_values(rt: &HostRuntime, question: &[u16], text: &[u8], i: usize, j: usize) -> Status {
    let mut buf = [0u8; TOO_MANY];
    let mut values = [0u16; 2 * FILLING];
    match load(rt, j, &mut buf, &mut values) {
        Ok(t) => attempt(rt, question, &values[0..t.words], text, i),
        Err(_) => failed(),
    }
}

// Whether the filling in the file of argument `j` meets the question in the file that argument `i` names.
pub fn try_file(rt: &HostRuntime, i: usize, j: usize) -> Status {
    let mut buf = [0u8; TOO_MANY];
    let mut words = [0u16; 2 * QUESTION];
    match load_question(rt, i, &mut buf, &mut words) {
        Ok(t) => try_values(rt, &words[0..t.words], &buf[0..t.bytes], i, j),
        Err(u) => no_question(rt, u.refusal, &buf[0..u.bytes], i),
    }
}
