// The lines of an answer, and the values of a filling. `names` has the names of the text that the question came as, and is empty where it came as words
// (crates/notation).
ghost use Rattle.std.specs.Prelude.{◌<◌};

use answers::LINE_HEAD;
use notation::Writer;
use outcomes::Solved;
use print::say;
use std::io::Stdout;
use words::word;

// A word as a place or a count.
fn place(ws: &[u16], i: usize) -> usize
    ensures { result < 65536 }
{
    usize::from(word(ws, i))
}

// Line i of an answer: its place among the lines, its mark and the number of its alternative, then its literals.
fn line(w: Writer<'_>, answer: &[u16], i: usize)
    requires { i < 65536 }
{
    let from = place(answer, i + 2);
    let to = place(answer, i + 3);
    let mark = if word(answer, from) == 1 {
        "settled"
    } else {
        "open"
    };
    let alternative = word(answer, from + 1);
    let _ = println!(w.out; "line {i}, {mark}, of alternative {alternative}");
    let start = from + LINE_HEAD;
    if start >= to {
        say(w.out, b"  every report meets it\n");
    }
    w.literals(answer, start, to);
}

// An answer: its verdict, its counts and its lines.
pub fn answered(
    out: Stdout,
    verdict: &str,
    s: Solved,
    question: &[u16],
    answer: &[u16],
    names: &[u8],
) {
    let lines = s.lines;
    let open = s.open;
    let steps = s.steps;
    let _ = println!(out; "{verdict}\nlines {lines}, open lines {open}, steps {steps}");
    let w = Writer::new(out, word(question, 0), names);
    for i in 0..place(answer, 0) {
        line(w, answer, i);
    }
}

// Words in decimal, in a row.
pub fn words(out: Stdout, ws: &[u16]) {
    for (i, w) in ws.iter().enumerate() {
        let gap = if i > 0 { " " } else { "" };
        let _ = print!(out; "{gap}{w}");
    }
    say(out, b"\n");
}

// A filling's values as remarks, and then its words, so that what is written here can be read again.
pub fn filling(out: Stdout, question: &[u16], ws: &[u16], names: &[u8]) {
    let w = Writer::new(out, word(question, 0), names);
    for i in 0..place(ws, 0) {
        say(out, b"# ");
        w.variable(i, place(question, 1), place(question, 2));
        say(out, b" = ");
        w.hedge(ws, place(ws, i + 1));
        say(out, b"\n");
    }
    words(out, ws);
}
