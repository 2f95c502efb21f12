// A day's questions, file by file: a table with a row for each, and on a terminal how far that is.
#![tactic(auto)]

use files::arguments::{LONGEST, argument, count, say_of, warn_of};
use files::status::{Status, failed, found};
use files::{TOO_MANY, load_question};
use language::limits::{QUESTION, ROOM};
use outcomes::outcome_number;
use print::say;
use std::io::IsTerminal;
use wording::table::{beside, heading, outcome_row, unread_row};

// How many bytes argument `i` has.
fn length_of(rt: &HostRuntime, i: usize) -> usize {
    let mut text = [0u8; LONGEST];
    argument(rt, i, &mut text)
}

// How wide the column of the files is: as the longest name among the arguments from `i` on, or as its heading.
fn widest(rt: &HostRuntime, i: usize) -> usize {
    (i..count(rt)).fold(4, |most, j| length_of(rt, j).max(most))
}

// Which argument names the file, how wide the column of files is, and which question of how many it is.
#[derive(Clone, Copy)]
struct Place {
    file: usize,
    width: usize,
    number: usize,
    count: usize,
}

// How far it is, in a line of its own where a person looks on, and its end.
fn progress(rt: &HostRuntime, r: Place) {
    if rt.stderr().is_terminal() {
        let number = r.number;
        let count = r.count;
        let _ = eprint!(rt; "\rsolving question {number} of {count}: ");
        warn_of(rt, r.file);
    }
}

fn no_progress(rt: &HostRuntime) {
    if rt.stderr().is_terminal() {
        say(rt.stderr(), b"\r\x1b[K");
    }
}

// The file's name, at the left of its column.
fn name(rt: &HostRuntime, r: Place) {
    say_of(rt, r.file);
    beside(rt.stdout(), length_of(rt, r.file), r.width);
}

// The row of a question, and whether it is answered.
fn solve_row(rt: &HostRuntime, question: &[u16], r: Place) -> bool {
    let mut work = [0u16; ROOM];
    let mut answer = [0u16; ROOM];
    progress(rt, r);
    let s = solver::solve(question, &mut work, &mut answer);
    no_progress(rt);
    name(rt, r);
    outcome_row(rt.stdout(), s);
    outcome_number(s.outcome) == 0
}

// The row of a file, and whether its question is answered.
fn row(rt: &HostRuntime, r: Place) -> bool {
    let mut buf = [0u8; TOO_MANY];
    let mut words = [0u16; 2 * QUESTION];
    match load_question(rt, r.file, &mut buf, &mut words) {
        Ok(t) => solve_row(rt, &words[0..t.words], r),
        Err(u) => {
            name(rt, r);
            unread_row(rt.stdout(), u.refusal);
            false
        }
    }
}

// The rows of the files that the arguments from `first` on name, and whether every question is answered.
fn rows(rt: &HostRuntime, first: usize, width: usize) -> bool {
    let n = count(rt);
    let mut all = true;
    for i in first..n {
        let r = Place {
            file: i,
            width,
            number: i - first + 1,
            count: n - first,
        };
        all &= row(rt, r);
    }
    all
}

// The table of these files. It prints, and returns its status.
pub fn day_files(rt: &HostRuntime, first: usize) -> Status {
    let width = widest(rt, first);
    heading(rt.stdout(), width);
    if rows(rt, first, width) {
        return found();
    }
    failed()
}
