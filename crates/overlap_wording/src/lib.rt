// What the desk says at its prompt of live rules and their pairs. To print is all that these calls do: they return nothing, and are proved safe and ending.
#![tactic(auto)]

use notation::Writer;
use print::say;
use std::io::{Stderr, Stdout};

// What is done with a report that matches a rule.
fn action(n: u16) -> &'static str {
    match n {
        0 => "keep",
        1 => "drop",
        _ => "forward",
    }
}

// Two rules, by their numbers and their actions.
pub fn pair(out: Stdout, i: usize, a: u16, j: usize, b: u16) {
    let a = action(a);
    let b = action(b);
    let _ = print!(out; "  {i} {a}, {j} {b}: ");
}

// Behind two rules: they can meet, with a report that both match, written out with what the first word of the sheet declares.
pub fn met(out: Stdout, first: u16, report: &[u16]) {
    say(out, b"can meet, by ");
    Writer::new(out, first, b"").hedge(report, 0);
    say(out, b"\n");
}

// Behind two rules: what else they come to.
pub fn not_met(out: Stdout, n: u32) {
    let _ = match n {
        16 => println!(out; "can meet, by a report that is too long to show"),
        101 => println!(out; "not settled"),
        _ => println!(out; "refused, number {n}"),
    };
}

pub fn heading(out: Stdout, different: bool) {
    let actions = if different {
        "different actions"
    } else {
        "the same action"
    };
    let _ = println!(out; "pairs with {actions}:");
}

pub fn no_pair(out: Stdout) {
    say(out, b"  none\n");
}

// How many pairs are not in the table.
pub fn rest(out: Stdout, n: usize) {
    let pairs = if n == 1 { "pair" } else { "pairs" };
    let _ = println!(out; "{n} {pairs} cannot meet");
}

// Why a sheet is refused, and what to do about it.
pub fn refused(err: Stderr, n: u32) {
    let reason = match n {
        24 =>
            "the sheet has more than 32 rules.\nAsk about part of them, each part with every other.",
        _ =>
            "the words are no sheet of live rules.\nA sheet is the first word of a question, the number of its rules, and of each rule its action (0 keep, 1 drop, 2 forward), the number of its pattern's words, and the pattern; nothing stands behind the last rule.",
    };
    let _ = println!(err; "desk: refused, number {n}: {reason}");
}

// How far it is, in a line of its own where a person looks on.
pub fn progress(err: Stderr, i: usize, j: usize) {
    let _ = print!(err; "\rasking about rules {i} and {j}");
}

// And its end.
pub fn no_progress(err: Stderr) {
    say(err, b"\r\x1b[K");
}
