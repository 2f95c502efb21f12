// The table of a day: a row for each question, its outcome, its lines, its open lines and its steps, or why it is refused.
use language::Refusal;
use outcomes::{Outcome, Solved};
use print::say;
use std::io::Stdout;

// What is left of a column of this width beside a text of so many bytes, and two spaces more.
pub fn beside(out: Stdout, len: usize, width: usize) {
    let left = width.saturating_sub(len);
    let _ = print!(out; "{:left$}  ", "");
}

pub fn heading(out: Stdout, width: usize) {
    let _ = println!(out; "{:<width$}  outcome  lines   open  steps", "file");
}

fn answered_row(out: Stdout, verdict: &str, s: Solved) {
    let lines = s.lines;
    let open = s.open;
    let steps = s.steps;
    let _ = println!(out; "{verdict:<7}  {lines:>5}  {open:>5}  {steps:>5}");
}

// Why a question is refused: the number, and the place of the mistake where there is one.
fn refused_row(out: Stdout, r: Refusal) {
    let number = refusals::number(r);
    let _ = match refusals::place(r) {
        0 => println!(out; "refused  number {number}"),
        at => println!(out; "refused  number {number}, at word {at}"),
    };
}

// A row, behind the file's name.
pub fn outcome_row(out: Stdout, s: Solved) {
    match s.outcome {
        Outcome::Refused(r) => refused_row(out, r),
        Outcome::NoLine => answered_row(out, "none", s),
        Outcome::AllSolved => answered_row(out, "settled", s),
        Outcome::SomeOpen => answered_row(out, "open", s),
    }
}

// A row of a file that came to no question, behind its name: a text that is refused, or a file that was not read.
pub fn unread_row(out: Stdout, refusal: Option<Refusal>) {
    match refusal {
        Some(r) => refused_row(out, r),
        None => say(out, b"not read\n"),
    }
}
