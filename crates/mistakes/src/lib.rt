// The mistake in a question, for 5 and 6: the word at its place, shown where it stands in the text, and what was expected there. All words before
// the place can be continued, so the part that the place stands in follows from them and is never guessed.
// To print is all that the call does: it returns nothing, and is proved safe and ending.
#![tactic(auto)]

mod word_places;

use crate::word_places::point;
use language::limits::QUESTION;
use language::{Kind, Refusal, classify};
use std::fmt;
use std::io::Stderr;
use words::word;

// Which hedge of a literal.
#[derive(Clone, Copy)]
enum Hedge {
    FirstSide,
    SecondSide,
    Member,
}

// What a place of a conjunction stands in: between literals; in a hedge, under so many symbols that are open in it; in an expression, with so many
// still to come.
#[derive(Clone, Copy)]
enum Part {
    Literals,
    Hedge(Hedge, usize),
    Expression(usize),
}

impl fmt::Display for Part {
    fn fmt<W: fmt::Write>(&self, f: &mut fmt::Formatter<W>) -> fmt::Result {
        f.write_str(match *self {
            Part::Literals => "an alternative",
            Part::Hedge(Hedge::FirstSide, _) => "an equation's first side",
            Part::Hedge(Hedge::SecondSide, _) => "an equation's second side",
            Part::Hedge(Hedge::Member, _) => "a membership's hedge",
            Part::Expression(_) => "a membership's expression",
        })
    }
}

// No conjunction is as deep as a question is long.
fn deeper(depth: usize) -> usize {
    depth.saturating_add(1).min(QUESTION)
}

fn begin(kind: Kind) -> Part {
    match kind {
        Kind::Equation => Part::Hedge(Hedge::FirstSide, 0),
        _ => Part::Hedge(Hedge::Member, 0),
    }
}

// The part behind a hedge.
fn behind(hedge: Hedge) -> Part {
    match hedge {
        Hedge::FirstSide => Part::Hedge(Hedge::SecondSide, 0),
        Hedge::SecondSide => Part::Literals,
        Hedge::Member => Part::Expression(1),
    }
}

// A 0 is that of a symbol's children, or ends the hedge.
fn in_hedge(hedge: Hedge, depth: usize, kind: Kind) -> Part {
    match kind {
        Kind::End if depth == 0 => behind(hedge),
        Kind::End => Part::Hedge(hedge, depth - 1),
        Kind::Symbol(_) | Kind::Function(_) => Part::Hedge(hedge, deeper(depth)),
        _ => Part::Hedge(hedge, depth),
    }
}

// An expression ends; the last that was to come ends the literal.
fn end(left: usize) -> Part {
    if left < 2 {
        return Part::Literals;
    }
    Part::Expression(left - 1)
}

fn in_expression(left: usize, kind: Kind) -> Part {
    match kind {
        Kind::Eps => end(left),
        Kind::Cat | Kind::Alt => Part::Expression(deeper(left)),
        _ => Part::Expression(left),
    }
}

// Where reading stands after one word more.
fn next(part: Part, kind: Kind) -> Part {
    match part {
        Part::Literals => begin(kind),
        Part::Hedge(hedge, depth) => in_hedge(hedge, depth, kind),
        Part::Expression(left) => in_expression(left, kind),
    }
}

// Where the conjunctions of a question begin, behind five counts and their offsets.
fn conjunctions(question: &[u16]) -> usize {
    usize::from(word(question, 4)) + 6
}

// Where reading stands at a place, from where the conjunctions begin: each that ends before it is literals.
fn stand(question: &[u16], at: usize) -> Part {
    let mut part = Part::Literals;
    for i in conjunctions(question)..at {
        part = next(part, classify(word(question, i)));
    }
    part
}

// Whether a conjunction ends at a place: it is one of the offsets.
fn is_end(question: &[u16], at: usize) -> bool {
    (5..conjunctions(question)).any(|i| usize::from(word(question, i)) == at)
}

// What can stand in a part, wherever in it.
fn expected(part: Part) -> &'static str {
    match part {
        Part::Literals => "a literal begins with 5000 or 6000",
        Part::Hedge(_, _) => "a variable, a symbol or a 0 is expected",
        Part::Expression(_) => "a symbol or one of 7000 to 7003 is expected",
    }
}

// 5: the conjunction breaks off, or the word cannot stand there.
fn not_literals(err: Stderr, question: &[u16], text: &[u8], at: usize) {
    let part = stand(question, at);
    if !matches!(part, Part::Literals) && is_end(question, at) {
        // the place is behind the alternative's last word
        point(err, text, at.saturating_sub(1), true);
        let _ = println!(err; "word {at}: the alternative ends inside {part}");
        return;
    }
    point(err, text, at, false);
    let value = word(question, at);
    let expected = expected(part);
    let _ = println!(err; "word {at}, {value}: in {part} {expected}");
}

// That none of a kind is declared that has this number, and how many are.
fn undeclared_of(err: Stderr, kind: &str, n: u16) {
    let _ = print!(err; ": this {kind} is not declared; ");
    let _ = match n {
        0 => println!(err; "no {kind} is"),
        1 => println!(err; "1 {kind} is"),
        _ => println!(err; "{n} {kind}s are"),
    };
}

// 6: the word is not declared.
fn undeclared(err: Stderr, question: &[u16], text: &[u8], at: usize) {
    point(err, text, at, false);
    let value = word(question, at);
    let _ = print!(err; "word {at}, {value}");
    match classify(value) {
        Kind::Term(_) => undeclared_of(err, "term variable", word(question, 1)),
        Kind::Run(_) => undeclared_of(err, "hedge variable", word(question, 2)),
        Kind::Function(_) => undeclared_of(err, "function variable", word(question, 3)),
        _ => undeclared_of(err, "symbol", word(question, 0)),
    }
}

// The mistake for which a question is refused, whose words stand in this text. Where no word of it is to blame, nothing is said.
pub fn mistake(err: Stderr, refusal: Refusal, question: &[u16], text: &[u8]) {
    match refusal {
        Refusal::NotLiterals(at) => not_literals(err, question, text, at),
        Refusal::Undeclared(at) => undeclared(err, question, text, at),
        _ => {}
    }
}
