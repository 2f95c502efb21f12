// Reads cases, a line each: the lengths of the work and the answer slice to lend, then the question's words. Writes the refusal's number, the
// lines, the open lines and the steps, and every word of both slices: of what is not an answer's line, how many zeros stand there and how many
// words then stand as they were lent.
#![tactic(auto)]

ghost use Rattle.std.specs.Prelude.{◌≤◌, ◌<◌, length, IfOk};

use language::limits::{QUESTION, ROOM};
use print::say;
use std::io;
use std::io::{Read, Stdin, Stdout};

// A slice that is lent may be longer than it has to be.
const MOST: usize = ROOM + 808;

fn number(out: Stdout, n: usize) {
    let _ = print!(out; "{n} ");
}

// The word that is lent at a place: never 0, and another one at the next.
fn lent(i: usize) -> u16 {
    (i % 1000 + 1) as u16
}

fn lend(s: &mut [u16]) {
    for (i, word) in s.iter_mut().enumerate() {
        *word = lent(i);
    }
}

// Where the zeros end that stand from a place on.
fn zeros_end(s: &[u16], from: usize) -> usize
    requires { from ≤ length s.now }
    ensures { (from ≤ result) × (result ≤ length s.now) }
{
    for i in from..s.len() {
        if s[i] != 0 {
            return i;
        }
    }
    s.len()
}

// Where the words end that stand from a place on as they were lent.
fn lent_end(s: &[u16], from: usize) -> usize
    requires { from ≤ length s.now }
    ensures { (from ≤ result) × (result ≤ length s.now) }
{
    for i in from..s.len() {
        if s[i] != lent(i) {
            return i;
        }
    }
    s.len()
}

// From a place on: how many zeros, and how many words behind them as they were lent. A word that is neither makes the two too few.
fn left(out: Stdout, s: &[u16], from: usize)
    requires { from ≤ length s.now }
{
    let zeros = zeros_end(s, from);
    let end = lent_end(s, zeros);
    number(out, zeros - from);
    number(out, end - zeros);
}

// The words up to a place, and where they end.
fn words(out: Stdout, s: &[u16], end: usize) -> usize
    ensures { result ≤ length s.now }
{
    let end = end.min(s.len());
    for word in &s[..end] {
        number(out, usize::from(*word));
    }
    end
}

// The place after the last line of an answer.
fn lines_end(answer: &[u16]) -> usize {
    let at = usize::from(words::word(answer, 0)) + 2;
    usize::from(words::word(answer, at))
}

fn solved(out: Stdout, question: &[u16], work: &mut [u16], answer: &mut [u16]) {
    let s = solver::solve(question, work, answer);
    let refusal = outcomes::outcome_number(s.outcome);
    let lines = s.lines;
    let open = s.open;
    let steps = s.steps;
    let _ = print!(out; "{refusal} {lines} {open} {steps} work ");
    left(out, work, 0);
    say(out, b"answer ");
    let end = if refusal == 0 { lines_end(answer) } else { 0 };
    left(out, answer, words(out, answer, end));
    say(out, b"\n");
}

fn one(out: Stdout, line: &[u8]) {
    let mut words = [0u16; 2 * QUESTION];
    let mut work = [0u16; MOST];
    let mut answer = [0u16; MOST];
    lend(&mut work);
    lend(&mut answer);
    let n = cases::words_of(line, &mut words);
    if n < 2 {
        return;
    }
    let w = usize::from(words[0]).min(MOST);
    let a = usize::from(words[1]).min(MOST);
    solved(out, &words[2..n], &mut work[0..w], &mut answer[0..a]);
}

fn all(out: Stdout, text: &[u8]) {
    let mut at = 0;
    while at < text.len() {
        let end = cases::line_end(text, at);
        one(out, &text[at..end]);
        at = end + 1;
    }
}

// The bytes of standard input as far as there is room for them, and how many they are.
fn read(input: Stdin, buf: &mut [u8]) -> io::Result<usize>
    ensures { IfOk result (λ n. n ≤ length buf.new) }
{
    let mut from = input;
    let mut done = 0;
    while done < buf.len() {
        let n = from.read(&mut buf[done..])?;
        if n == 0 {
            return Ok(done);
        }
        done += n;
    }
    Ok(done)
}

fn main(rt: HostRuntime) -> io::Result<()> {
    let mut buffer = [0u8; 131072];
    let n = read(rt.stdin(), &mut buffer)?;
    all(rt.stdout(), &buffer[..n]);
    Ok(())
}
