// The answer slice, line by line: at any time it is the answer that has the lines so far.
#![tactic(auto)]

ghost use Rattle.std.specs.Prelude.{◌+◌, ◌≤◌, ◌<◌, ◌≡◌, [], ◌∷◌, length};
ghost use Rattle.std.proofs.lemmas.List.Edits.{sets};
ghost use Rattle.language.specs.Limits.{desk};
ghost use Rattle.language.specs.Kinds.{pick};
ghost use Rattle.answers.specs.Lined.{line_head, Lined, counted, with_line};

use language::limits::LINES_AT;
use slices::{clear, copy, store};

// How many lines there are, how many of them open, and the place after the last.
#[derive(Clone, Copy)]
pub struct Tally {
    pub lines: usize,
    pub open: usize,
    pub end: usize,
}

// How many words of a line stand before its literals: its mark, and the number of the alternative that it descends from.
pub const LINE_HEAD: usize = 2;

// The mark of a line.
fn mark(solved: bool) -> usize
    ensures { (result ≡ pick solved 1 2) × (result ≤ 2) }
{
    if solved { 1 } else { 2 }
}

// The open lines, one line more.
fn opened(before: usize, solved: bool) -> usize
    requires { before < 65535 }
    ensures { (result ≡ pick solved before (before + 1)) × (result ≤ before + 1) }
{
    if solved { before } else { before + 1 }
}

// The answer that has no line.
pub fn begin(answer: &mut [u16]) -> Tally
    requires { desk.room ≤ length answer.old }
    ensures { Lined answer.old [] result answer.new }
{
    clear(answer);
    store(answer, 2, LINES_AT);
    Tally {
        lines: 0,
        open: 0,
        end: LINES_AT,
    }
}

// The line's mark, its number and its words, behind the others.
fn write_line(k: &[u16], number: u16, solved: bool, at: usize, answer: &mut [u16])
    requires { at + line_head + length k.now ≤ length answer.old }
    ensures { answer.new ≡ sets answer.old at (pick solved 1 2 ∷ number ∷ k.now) }
{
    store(answer, at, mark(solved));
    answer[at + 1] = number;
    copy(k, 0, k.len(), answer, at + LINE_HEAD);
}

// A line more.
pub fn add_line(k: &[u16], number: u16, solved: bool, t: Tally, answer: &mut [u16]) -> Tally
    requires { (t.lines < desk.lines) × (t.«open» ≤ t.lines) × (t.end + line_head + length k.now ≤ desk.room) × (desk.room ≤ length answer.old) }
    ensures { (result ≡ counted t solved k.now) × (answer.new ≡ with_line t result number solved k.now answer.old) }
{
    let at = t.end;
    let lines = t.lines + 1;
    let end = at + LINE_HEAD + k.len();
    let open = opened(t.open, solved);
    write_line(k, number, solved, at, answer);
    store(answer, lines + 2, end);
    store(answer, 0, lines);
    store(answer, 1, open);
    Tally { lines, open, end }
}
