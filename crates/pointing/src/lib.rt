// A place of a file, shown in its line with a mark below it. To print is all that the call does: it returns nothing, and is proved safe and ending.
#![tactic(auto)]

ghost use Rattle.std.specs.Prelude.{◌<◌, ◌≤◌, length};

use print::say;
use std::io::Stderr;

// Where the line begins that a text ends in.
fn line_start(before: &[u8]) -> usize
    ensures { result ≤ length before.now }
{
    match before.iter().rposition(|b| *b == b'\n') {
        Some(i) => i + 1,
        None => 0,
    }
}

// No text that the desk takes has as many bytes.
const BYTES: usize = 65536;

// The number of the line that a text ends in, from 1.
fn line_number(before: &[u8]) -> usize
    requires { length before.now < 65536 }
{
    before.iter().filter(|b| **b == b'\n').count() + 1
}

fn is_end(b: u8, remark: u8) -> bool {
    b == b'\n' || b == b'\r' || b == remark
}

// How much of a text stands in its first line, before a byte that begins a remark.
fn line_end(behind: &[u8], remark: u8) -> usize
    ensures { result ≤ length behind.now }
{
    match behind.iter().position(|b| is_end(*b, remark)) {
        Some(i) => i,
        None => behind.len(),
    }
}

// A line of a text, from where it begins to where it ends, and from where to where it is shown.
#[derive(Clone, Copy)]
struct Shown {
    start: usize,
    end: usize,
    from: usize,
    to: usize,
}

// What is shown of a line, and a mark below the byte at `at`.
fn underline(err: Stderr, text: &[u8], line: Shown, at: usize) {
    let cut = line.start < line.from;
    let _ = print!(err; "{}", if cut { "  .. " } else { "  " });
    if let Some(part) = text.get(line.from..line.to) {
        say(err, part);
    }
    let _ = print!(err;
        "{}{}",
        if line.to < line.end { " ..\n" } else { "\n" },
        if cut { "     " } else { "  " }
    );
    // as much room as what stands before the byte takes
    for b in text.iter().take(at).skip(line.from) {
        say(err, if *b == b'\t' { b"\t" } else { b" " });
    }
    say(err, b"^\n");
}

// Says in which line and column a byte stands, and shows its line from `first` to `last` at most, up to a byte that begins a remark. The file's name is said
// before.
pub fn point_at(err: Stderr, text: &[u8], place: usize, first: usize, last: usize, remark: u8) {
    let at = place.min(text.len());
    let start = line_start(&text[..at]);
    if at < BYTES {
        let line = line_number(&text[..at]);
        let column = at - start + 1;
        let _ = print!(err; ", line {line}, column {column}:\n");
    }
    let end = at + line_end(&text[at..], remark);
    let line = Shown {
        start,
        end,
        from: start.max(first),
        to: end.min(last),
    };
    underline(err, text, line, at);
}
