// The rows of a walk: each behind blanks for how deep it is. `names` has the names of the text that the question came as (crates/notation).
use crate::Act;
use crate::names::rule_name;
use crate::reasons::reason;
use crate::sentences::sentence;
use notation::Writer;
use print::say;
use std::io::Stdout;

// Deeper rows stand no further to the right than this.
const DEEPEST: usize = 24;

fn indent(out: Stdout, depth: usize) {
    for _ in 0..depth.min(DEEPEST) {
        say(out, b"  ");
    }
}

// A literal in a row.
pub fn literal_row(w: Writer<'_>, k: &[u16], at: usize, depth: usize) {
    indent(w.out, depth);
    w.one_literal(k, at);
    say(w.out, b"\n");
}

// An alternative of the question, by its number.
pub fn alternative(out: Stdout, i: usize, asks: bool) {
    let rest = if asks { ":" } else { ": nothing is asked" };
    let _ = println!(out; "alternative {i}{rest}");
}

// One of the cases that a step left, before its own steps.
pub fn case_begins(out: Stdout, i: usize, step: usize, depth: usize) {
    indent(out, depth);
    let _ = println!(out; "case {i} of step {step}:");
}

// A step: its number, its rule and the literal that it acts on.
pub fn step_begins(w: Writer<'_>, k: &[u16], t: Act, step: usize, depth: usize) {
    indent(w.out, depth);
    let rule = rule_name(t.rule);
    let _ = print!(w.out; "step {step}, {rule}: ");
    w.one_literal(k, t.at);
    say(w.out, b"\n");
}

// Why it may be made.
pub fn step_says(w: Writer<'_>, k: &[u16], t: Act, depth: usize) {
    indent(w.out, depth);
    sentence(w, k, t);
    say(w.out, b"\n");
}

// Why nothing is left.
pub fn dropped(w: Writer<'_>, k: &[u16], t: Act, depth: usize) {
    indent(w.out, depth);
    say(w.out, b"dropped: ");
    reason(w, k, t);
    say(w.out, b"\n");
}

// The same by two tests that clash.
pub fn clashed(w: Writer<'_>, k: &[u16], first: usize, second: usize, depth: usize) {
    indent(w.out, depth);
    say(w.out, b"dropped: ");
    w.one_literal(k, first);
    say(w.out, b" and ");
    w.one_literal(k, second);
    say(w.out, b" share no report");
    say(w.out, b"\n");
}

// What comes before the new literals of a result: the only one, or a case.
pub fn becomes(out: Stdout, depth: usize) {
    indent(out, depth);
    say(out, b"now ");
}

pub fn case_is(out: Stdout, i: usize, depth: usize) {
    indent(out, depth);
    let _ = print!(out; "case {i}: ");
}

// One more literal of a result, apart from the one before it.
pub fn one_more(w: Writer<'_>, k: &[u16], at: usize, first: bool) {
    if !first {
        say(w.out, b"; ");
    }
    w.one_literal(k, at);
}

pub fn nothing_new(out: Stdout) {
    say(out, b"nothing more is asked");
}

pub fn row_ends(out: Stdout) {
    say(out, b"\n");
}

// A branch that ends in a line of the answer.
pub fn settled(out: Stdout, line: usize, depth: usize) {
    indent(out, depth);
    let _ = println!(out; "settled: line {line}");
}

pub fn open(out: Stdout, line: usize, depth: usize) {
    indent(out, depth);
    let _ = println!(out; "open: line {line}, promises nothing");
}

// A branch that is too long to be asked about step by step.
pub fn too_long(out: Stdout, depth: usize) {
    indent(out, depth);
    say(out, b"from here on the branch is too long to be shown\n");
}

// What the walk came to.
pub fn summary(out: Stdout, lines: usize, open: usize, steps: usize) {
    if lines == 0 {
        let _ = println!(out; "none: no report meets the question, and that is a promise");
    }
    let _ = println!(out; "lines {lines}, open lines {open}, steps {steps}");
}
