// A filling in words: how each word of the question is shown under it, and what the words of a hedge become.
#![tactic(auto)]

ghost use Rattle.std.specs.Prelude.{◌≡◌, ◌+◌, ◌≤◌, ◌<◌, length, drop};
ghost use Rattle.filling.specs.Showing.{body_at, name_at, TermEnd, shown, step_on, filled, HasValue, Shows, Written};
ghost use Rattle.language.specs.Limits.{desk};
ghost use Rattle.language.specs.Kinds.{kind_of};

use language::{Kind, classify, wide};
use slices::copy;

// The words of the value numbered i, without the 0 that ends it.
fn body<'a>(filling: &'a [u16], i: usize) -> &'a [u16]
    requires { HasValue filling.now i }
    ensures { result.now ≡ body_at filling.now i }
{
    let from = wide(filling[i + 1]);
    let to = wide(filling[i + 2]) - 1;
    &filling[from..to]
}

// Its first word.
fn name<'a>(filling: &'a [u16], i: usize) -> &'a [u16]
    requires { HasValue filling.now i }
    ensures { result.now ≡ name_at filling.now i }
{
    let from = wide(filling[i + 1]);
    let to = from + 1;
    &filling[from..to]
}

// The place after the term that begins at `at`, if it has no variable, and else after its first word.
fn term_end(words: &[u16], at: usize) -> usize
    requires { at < length words.now }
    ensures { TermEnd words.now at result }
{
    let mut depth: usize = 1;
    for i in at + 1..words.len() {
        match classify(words[i]) {
            Kind::End => {
                if depth == 1 {
                    return i + 1;
                }
                depth -= 1;
            }
            Kind::Symbol(_) => depth += 1,
            _ => return at + 1,
        }
    }
    at + 1
}

// The value of the word at `at`, as the part of the filling that holds it or, for a term without variables, as the part of the question itself.
fn lookup<'a>(
    filling: &'a [u16],
    question: &'a [u16],
    at: usize,
    terms: usize,
    hedges: usize,
) -> &'a [u16]
    requires at_in_bounds { at < length question.now }
    requires shows { Shows terms hedges filling.now question.now }
    ensures { result.now ≡ shown terms hedges filling.now (drop at question.now) }
{
    let word = question[at];
    match classify(word) {
        Kind::Term(x) => {
            let i = wide(x.0);
            body(filling, i)
        }
        Kind::Run(p) => {
            let i = terms + wide(p.0);
            body(filling, i)
        }
        Kind::Function(f) => {
            let i = terms + hedges + wide(f.0);
            name(filling, i)
        }
        Kind::Symbol(_) => {
            let to = term_end(question, at);
            &question[at..to]
        }
        _ => {
            let to = at + 1;
            &question[at..to]
        }
    }
}

// How many words of the question the value stands for that was shown for a word, in so many words.
fn step(word: u16, shown: usize) -> usize
    ensures { result ≡ step_on shown (kind_of desk word) }
{
    match classify(word) {
        Kind::Symbol(_) => shown,
        _ => 1,
    }
}

// How many words these become, without writing them.
pub fn filled_len<'a>(filling: &'a [u16], words: &'a [u16], terms: usize, hedges: usize) -> usize
    requires filling_len_bound { length filling.now ≤ desk.filling }
    requires words_len_bound { length words.now ≤ desk.question }
    requires shows { Shows terms hedges filling.now words.now }
    ensures { result ≡ length (filled terms hedges filling.now words.now) }
{
    let mut at: usize = 0;
    let mut total: usize = 0;
    while at < words.len() {
        let value = lookup(filling, words, at, terms, hedges);
        let n = value.len();
        total += n;
        at += step(words[at], n);
    }
    total
}

// What these words become, into `room` at `start`. The place after them.
pub fn fill_in<'a>(
    filling: &'a [u16],
    words: &'a [u16],
    terms: usize,
    hedges: usize,
    room: &mut [u16],
    start: usize,
) -> usize
    requires shows { Shows terms hedges filling.now words.now }
    requires words_in_bounds { start + length (filled terms hedges filling.now words.now) ≤ length room.old }
    ensures { Written terms hedges filling.now words.now room.old start room.new result }
{
    let mut at: usize = 0;
    let mut to = start;
    while at < words.len() {
        let value = lookup(filling, words, at, terms, hedges);
        let n = value.len();
        to = copy(value, 0, n, room, to);
        at += step(words[at], n);
    }
    to
}
