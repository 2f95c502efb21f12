// An example shown. The command prints, and returns its status.
#![tactic(auto)]

ghost use Rattle.std.specs.Prelude.{◌≤◌, length};

use files::arguments::{LONGEST, argument, wrong_use};
use files::status::{Status, found};
use files::{Loaded, SHEET, load_question};
use language::Refusal;
use language::limits::{FILLING, QUESTION, ROOM};
use prompt::parse;
use replies::{no_question, refuse};
use wording::answer::filling;

// The first words of the room, as a filling.
fn show_words(rt: &HostRuntime, question: &[u16], room: &[u16], names: &[u8], n: usize) {
    if n <= room.len() {
        filling(rt.stdout(), question, &room[0..n], names);
    }
}

// Says what an example came to.
fn shown(
    rt: &HostRuntime,
    s: Result<usize, Refusal>,
    question: &[u16],
    room: &[u16],
    text: &[u8],
    names: &[u8],
    i: usize,
) -> Status {
    match s {
        Ok(n) => {
            show_words(rt, question, room, names, n);
            found()
        }
        Err(r) => refuse(rt, r, question, text, i),
    }
}

fn show(
    rt: &HostRuntime,
    question: &[u16],
    line: usize,
    old: bool,
    text: &[u8],
    names: &[u8],
    i: usize,
) -> Status {
    let mut work = [0u16; ROOM];
    let mut answer = [0u16; ROOM];
    let mut room = [0u16; FILLING];
    let s = example::example(question, line, old, &mut work, &mut answer, &mut room);
    shown(rt, s, question, &room, text, names, i)
}

// The example of the line that argument `j` names, for old training sheets or not.
fn show_line(
    rt: &HostRuntime,
    question: &[u16],
    old: bool,
    buf: &[u8],
    t: Loaded,
    i: usize,
    j: usize,
) -> Status
    requires { (t.bytes ≤ length buf.now) × (t.named ≤ length buf.now) }
{
    let mut said = [0u8; LONGEST];
    let n = argument(rt, j, &mut said);
    let mut line = [0u16; 1];
    let p = parse(&said[..n], &mut line);
    if p.line != 0 {
        return wrong_use(rt, "a line is named by a number, and the first is 0");
    }
    show(
        rt,
        question,
        usize::from(line[0]),
        old,
        &buf[0..t.bytes],
        &buf[0..t.named],
        i,
    )
}

// The example of the line that argument `j` names, of the question in the file that argument `i` names.
pub fn example_file(rt: &HostRuntime, i: usize, j: usize, old: bool) -> Status {
    let mut buf = [0u8; SHEET];
    let mut words = [0u16; 2 * QUESTION];
    match load_question(rt, i, &mut buf, &mut words) {
        Ok(t) => show_line(rt, &words[0..t.words], old, &buf, t, i, j),
        Err(u) => no_question(rt, u.refusal, &buf[0..u.bytes], i),
    }
}
