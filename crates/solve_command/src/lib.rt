// A question solved. The command prints, and returns its status.
#![tactic(auto)]

ghost use Rattle.std.specs.Prelude.{◌≤◌, length};

use files::status::Status;
use files::{Loaded, SHEET, load_question};
use language::limits::{QUESTION, ROOM};
use replies::{no_question, solved};

// The lines of a question, which was read from these bytes.
fn solve(rt: &HostRuntime, question: &[u16], buf: &[u8], t: Loaded, i: usize) -> Status
    requires { (t.bytes ≤ length buf.now) × (t.named ≤ length buf.now) }
{
    let mut work = [0u16; ROOM];
    let mut answer = [0u16; ROOM];
    let s = solver::solve(question, &mut work, &mut answer);
    solved(
        rt,
        s,
        question,
        &answer,
        &buf[0..t.bytes],
        &buf[0..t.named],
        i,
    )
}

// The lines of the question in the file that argument `i` names.
pub fn solve_file(rt: &HostRuntime, i: usize) -> Status {
    let mut buf = [0u8; SHEET];
    let mut words = [0u16; 2 * QUESTION];
    match load_question(rt, i, &mut buf, &mut words) {
        Ok(t) => solve(rt, &words[0..t.words], &buf, t, i),
        Err(u) => no_question(rt, u.refusal, &buf[0..u.bytes], i),
    }
}
