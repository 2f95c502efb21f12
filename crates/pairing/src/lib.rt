// Whether two patterns can meet: a report that both match, if there is one. It knows the solver, the example and the reader by their contracts.
#![tactic(auto)]

ghost use Rattle.std.specs.Prelude.{ℕ, ◌+◌, ◌*◌, ◌≤◌, ◌<◌, ◌≡◌, false, List, eqb, length, get_or};
ghost use Rattle.std.proofs.lemmas.List.Edits.{sets};
ghost use Rattle.language.specs.Limits.{desk};
ghost use Rattle.language.specs.Question.{read_question};
ghost use Rattle.rules.specs.Answer.{solving};
ghost use Rattle.filling.specs.Showing.{filled, Shows};
ghost use Rattle.word_bytes.specs.Bytes.{words_in, bytes_of};
ghost use Rattle.pairing.specs.Meeting.{fits, early, shown_by, meeting_of, meeting};
ghost use Rattle.pairing.specs.Lent.{Told, marked_from};
ghost use Rattle.pairing.specs.Here.{Here, PairHere, Known, PairKnown};

use filling::{fill_in, filled_len};
use language::limits::{FILLING, QUESTION, ROOM};
use outcomes::{outcome_number, shown_length, shown_number, verdict_number};
use patterns::{Pair, Unasked};
use word_bytes::write_words_at;
use words::word;

// The mark of a line stands where its offset says.
fn settled(answer: &[u16], line: usize) -> bool
    requires { line + 2 < 18446744073709551616 }
    ensures { result ≡ eqb (get_or answer.now (get_or answer.now (line + 2) 0) 0) 1 }
{
    word(answer, usize::from(word(answer, line + 2))) == 1
}

// The first line of an answer that is marked settled; the number of lines where none is.
fn first_settled(answer: &[u16], lines: usize) -> usize
    requires { lines < 65536 }
    ensures { result ≡ marked_from answer.now 0 lines }
{
    for i in 0..lines {
        if settled(answer, i) {
            return i;
        }
    }
    lines
}

// The report's bytes, into the room from the word `at` on: each word of the pattern becomes its value, by way of the scratch.
fn write_report<'a>(
    filling: &'a [u16],
    pattern: &'a [u16],
    terms: usize,
    hedges: usize,
    scratch: &mut [u16],
    room: &mut [u8],
    at: usize,
)
    requires shows { Shows terms hedges filling.now pattern.now }
    requires filling_len_bound { (length filling.now ≤ desk.filling) × (desk.room ≤ length scratch.old) }
    requires pattern_in_bounds { 2 * (at + length (filled terms hedges filling.now pattern.now)) ≤ length room.old }
    ensures { room.new ≡ sets room.old (2 * at) (bytes_of (filled terms hedges filling.now pattern.now)) }
{
    let mut to = at;
    for i in 0..pattern.len() {
        let n = fill_in(filling, &pattern[i..i + 1], terms, hedges, scratch, 0);
        write_words_at(&scratch[0..n], room, to);
        to += n;
    }
}

// kept: the number is promised to fit, so that `u32::try_from` would bring a case that never comes.
fn narrow(n: usize) -> u32
    requires { n ≤ (desk.filling + desk.question) * desk.question }
    ensures { result ≡ n }
{
    n as u32
}

// The first pattern filled, where it fits: 200 and how many words it has.
fn report<'a>(
    filling: &'a [u16],
    pattern: &'a [u16],
    terms: usize,
    hedges: usize,
    scratch: &mut [u16],
    room: &mut [u8],
    at: usize,
    size: usize,
) -> u32
    requires shows { Shows terms hedges filling.now pattern.now }
    requires filling_len_bound { (length filling.now ≤ desk.filling) × (length pattern.now ≤ desk.question) × (desk.room ≤ length scratch.old) }
    requires size_in_bounds { 2 * (at + size) ≤ length room.old }
    ensures { Told (fits size (filled terms hedges filling.now pattern.now)) at room.old result room.new }
{
    let n = filled_len(filling, pattern, terms, hedges);
    if size < n {
        return 16;
    }
    write_report(filling, pattern, terms, hedges, scratch, room, at);
    200 + narrow(n)
}

// A pair whose patterns are not both one term: 2 or 3 of its question, and else 5.
fn unfair(question: &[u16]) -> u32
    ensures { result ≡ early (read_question desk question.now) }
{
    let k = verdict_number(reader::read_question(question));
    if k == 0 {
        return 5;
    }
    if k <= 3 {
        return u32::from(k);
    }
    5
}

// The example of a line of a pair's question, by which the first pattern is filled. The three slices are the library's own.
fn show<'a>(
    question: &'a [u16],
    p: Pair,
    line: usize,
    work: &mut [u16],
    answer: &mut [u16],
    room: &mut [u8],
    at: usize,
    size: usize,
) -> u32
    requires { PairHere question.now p × (length work.old ≡ desk.room) × (length answer.old ≡ desk.room) × (2 * (at + size) ≤ length room.old) }
    ensures { (word : ℕ) (ps qs : List ℕ) → Here word ps qs question.now p → Told (shown_by size word ps qs line) at room.old result room.new }
{
    let mut own = [0u16; FILLING];
    let s = example::example(question, line, false, work, answer, &mut own);
    let k = shown_number(s);
    if k != 0 {
        return u32::from(k);
    }
    let n = shown_length(s);
    report(
        &own[0..n],
        &question[8..8 + p.first],
        p.terms,
        p.hedges,
        work,
        room,
        at,
        size,
    )
}

// What the solver's answer to a pair's question comes to. Its slices are the library's own.
fn settle<'a>(question: &'a [u16], p: Pair, room: &mut [u8], at: usize, size: usize) -> u32
    requires { PairHere question.now p × (2 * (at + size) ≤ length room.old) }
    ensures { (word : ℕ) (ps qs : List ℕ) → Here word ps qs question.now p → Told (meeting_of size word ps qs (solving desk desk.room desk.room question.now)) at room.old result room.new }
{
    let mut work = [0u16; ROOM];
    let mut answer = [0u16; ROOM];
    let s = solver::solve(question, &mut work, &mut answer);
    let outcome = s.outcome;
    let k = outcome_number(outcome);
    if k != 0 {
        return u32::from(k);
    }
    let lines = usize::from(word(&answer, 0));
    if lines == 0 {
        return 100;
    }
    let i = first_settled(&answer, lines);
    if i == lines {
        return 101;
    }
    show(question, p, i, &mut work, &mut answer, room, at, size)
}

// What a pair's question comes to, once it is written.
fn decide<'a>(question: &'a [u16], p: Pair, room: &mut [u8], at: usize, size: usize) -> u32
    requires { PairKnown question.now p × (2 * (at + size) ≤ length room.old) }
    ensures { (word : ℕ) (ps qs : List ℕ) → Known word ps qs question.now p → Told (meeting size word ps qs) at room.old result room.new }
{
    if p.fair {
        return settle(question, p, room, at, size);
    }
    unfair(question)
}

// Whether two patterns can meet, by their bytes: 100 they cannot, 101 it is not settled, 200 and the words of a report that both match, which the
// room then holds from the word `at` on, where it has `size` words for it; or the refusal's number. `word` is a question's word 0.
pub fn meet(word: u16, first: &[u8], second: &[u8], room: &mut [u8], at: usize, size: usize) -> u32
    requires { 2 * (at + size) ≤ length room.old }
    ensures { Told (meeting size word (words_in first.now) (words_in second.now)) at room.old result room.new }
{
    let mut question = [0u16; QUESTION];
    match patterns::ask(word, first, second, &mut question) {
        Err(Unasked::TooMany) => 25,
        Err(Unasked::TooLong) => 2,
        Ok(p) => {
            let n = p.len;
            decide(&question[0..n], p, room, at, size)
        }
    }
}
