// Hedges, expressions and literals written out for a reader. Where a question came as words, x0, p0, X0 are the term, hedge and function variables, a0 a
// symbol, a1~ one whose parts come in any order, () nothing at all. Where it came as a text, all is written as a text is, in that text's own names.
#![tactic(auto)]

ghost use Rattle.std.specs.Prelude.{◌≤◌, ◌/◌, ◌%◌, ◌≡◌};

mod names;

use language::{Kind, Signature, Sym, classify, is_unordered};
use names::Sort;
use print::say;
use spans::element_end;
use std::io::Stdout;
use words::word;

// How much of an expression can stand at a place of a text without brackets: a list of choices, a choice, or less. For a question of words all have them.
#[derive(Clone, Copy)]
enum Level {
    Listed,
    Choice,
    Tight,
}

impl Level {
    // Whether brackets stand around an expression there.
    fn brackets(self, kind: Kind) -> bool {
        match kind {
            Kind::Cat => !matches!(self, Level::Listed),
            Kind::Alt => matches!(self, Level::Tight),
            _ => false,
        }
    }
}

// Whether a word has children, and a 0 behind them.
fn has_children(w: u16) -> bool {
    matches!(classify(w), Kind::Symbol(_) | Kind::Function(_))
}

// Whether children follow this word.
fn opens(ws: &[u16], at: usize, w: u16) -> bool {
    has_children(w) && word(ws, at) != 0
}

// The place after an element without children: a symbol or a function variable has a 0 of its own.
fn after(ws: &[u16], at: usize, w: u16) -> usize
    ensures { at ≤ result }
{
    if has_children(w) && at < ws.len() {
        return at + 1;
    }
    at
}

// A symbol over eps, which is written as the symbol alone.
fn is_leaf(ws: &[u16], next: usize, kind: Kind) -> bool {
    matches!(kind, Kind::Symbol(_)) && word(ws, next) == 7000
}

// What trees are written out with: where to, which symbols are unordered, and the names of the text that the question came as (`names.rt`).
#[derive(Clone, Copy)]
pub struct Writer<'a> {
    pub out: Stdout,
    signature: Signature,
    names: &'a [u8],
}

impl<'a> Writer<'a> {
    // For a question that begins with this word, which counts its symbols.
    pub fn new(out: Stdout, first: u16, names: &'a [u8]) -> Writer<'a>
        ensures { result ≡ record { out = out; signature = record { symbols = first % 256; unordered = first / 256 }; names = names.entry } }
    {
        let signature = Signature {
            symbols: first % 256,
            unordered: first / 256,
        };
        Writer {
            out,
            signature,
            names,
        }
    }

    fn bracket(&self, stands: bool, text: &[u8]) {
        if stands {
            say(self.out, text);
        }
    }

    // A symbol, with a mark where it is unordered.
    fn symbol(&self, f: Sym) {
        self.name(Sort::Symbol, usize::from(f.0));
        self.bracket(is_unordered(self.signature, f), b"~");
    }

    // The name of a variable or a symbol.
    pub fn named(self, w: u16) {
        self.written(w);
    }

    fn written(&self, w: u16) {
        match classify(w) {
            Kind::Term(x) => self.name(Sort::Term, usize::from(x.0)),
            Kind::Run(p) => self.name(Sort::Run, usize::from(p.0)),
            Kind::Symbol(f) => self.symbol(f),
            Kind::Function(f) => self.name(Sort::Function, usize::from(f.0)),
            _ => {
                let _ = print!(self.out; "{w}");
            }
        }
    }

    // The name of variable i of a filling: term, hedge, function variables in order.
    pub fn variable(self, i: usize, terms: usize, hedges: usize) {
        if i < terms {
            self.name(Sort::Term, i);
        } else if i - terms < hedges {
            self.name(Sort::Run, i - terms);
        } else {
            self.name(Sort::Function, i - terms - hedges);
        }
    }

    // A comma where another element follows.
    fn comma(self, ws: &[u16], at: usize) {
        self.bracket(word(ws, at) != 0, b", ");
    }

    // A hedge; the place after its 0.
    fn past_hedge(self, ws: &[u16], from: usize) -> usize
        ensures { from ≤ result }
    {
        let mut at = from;
        let mut depth: usize = 0;
        self.bracket(word(ws, from) == 0, b"()");
        // kept: goes on by where an element ends, not by one
        while at < ws.len() {
            let w = ws[at];
            at += 1;
            if w == 0 {
                if depth == 0 {
                    return at;
                }
                depth -= 1;
                say(self.out, b")");
                self.comma(ws, at);
            } else {
                self.named(w);
                if opens(ws, at, w) {
                    say(self.out, b"(");
                    depth += 1;
                } else {
                    at = after(ws, at, w);
                    self.comma(ws, at);
                }
            }
        }
        at
    }

    // Whether a side is several elements in a text, where brackets stand around them.
    fn is_row(self, ws: &[u16], from: usize) -> bool {
        word(ws, from) != 0 && self.is_text() && word(ws, element_end(ws, from)) != 0
    }

    // A hedge as a side; the place after its 0.
    fn side(self, ws: &[u16], from: usize) -> usize
        ensures { from ≤ result }
    {
        let row = self.is_row(ws, from);
        self.bracket(row, b"(");
        let end = self.past_hedge(ws, from);
        self.bracket(row, b")");
        end
    }

    // The hedge that begins here.
    pub fn hedge(self, ws: &[u16], from: usize) {
        self.side(ws, from);
    }

    fn level(&self, of_text: Level) -> Level {
        if self.is_text() {
            of_text
        } else {
            Level::Tight
        }
    }

    // That of the first part of such an expression, and that of the second.
    fn first_level(&self, kind: Kind) -> Level {
        match kind {
            Kind::Cat => self.level(Level::Choice),
            Kind::Alt | Kind::Star => Level::Tight,
            _ => self.level(Level::Listed),
        }
    }

    fn second_level(&self, kind: Kind) -> Level {
        match kind {
            Kind::Cat => self.level(Level::Listed),
            _ => self.level(Level::Choice),
        }
    }

    // A sign of expressions: that of texts, or that for a question of words.
    fn sign(&self, of_text: &str, of_words: &str) {
        let sign = if self.is_text() { of_text } else { of_words };
        let _ = print!(self.out; "{sign}");
    }

    // What stands before the parts of such an expression, which begins with this word, between two of them, and behind them.
    fn before(&self, kind: Kind, w: u16, level: Level) {
        match kind {
            Kind::Eps => self.sign("()", "eps"),
            Kind::Cat | Kind::Alt => self.bracket(level.brackets(kind), b"("),
            Kind::Star => {}
            _ => {
                self.written(w);
                say(self.out, b"(");
            }
        }
    }

    fn between(&self, kind: Kind) {
        match kind {
            Kind::Cat => self.sign(", ", " . "),
            _ => say(self.out, b" + "),
        }
    }

    fn behind(&self, kind: Kind, level: Level) {
        match kind {
            Kind::Cat | Kind::Alt => self.bracket(level.brackets(kind), b")"),
            Kind::Star => say(self.out, b"*"),
            _ => say(self.out, b")"),
        }
    }

    // The writer is lent here and below, not copied: each level of an expression would keep a copy for every call on the stack.
    // An expression: R . S in a row, in a text R, S; R + S either, R* any number, a0(R) one term over R; the place after it.
    fn expression(&self, ws: &[u16], at: usize, level: Level) -> usize
        ensures { at ≤ result }
    {
        if at >= ws.len() {
            return at;
        }
        let w = ws[at];
        let next = at + 1;
        let kind = classify(w);
        if is_leaf(ws, next, kind) {
            self.written(w);
            return after(ws, next, w);
        }
        self.before(kind, w, level);
        if w == 7000 {
            return next;
        }
        let middle = self.expression(ws, next, self.first_level(kind));
        if w == 7001 || w == 7002 {
            self.between(kind);
            let end = self.expression(ws, middle, self.second_level(kind));
            self.behind(kind, level);
            return end;
        }
        self.behind(kind, level);
        middle
    }

    // A literal; the place after it.
    fn literal(self, ws: &[u16], at: usize) -> usize
        ensures { at ≤ result }
    {
        if at >= ws.len() {
            return at;
        }
        let middle = self.side(ws, at + 1);
        if ws[at] == 5000 {
            say(self.out, b" = ");
            return self.side(ws, middle);
        }
        say(self.out, b" in ");
        self.expression(ws, middle, self.level(Level::Choice))
    }

    // The literal that begins here.
    pub fn one_literal(self, ws: &[u16], at: usize) {
        self.literal(ws, at);
    }

    // The literals between two places, a row for each.
    pub fn literals(self, ws: &[u16], from: usize, to: usize) {
        let mut at = from;
        for _ in from..to {
            if at < to {
                say(self.out, b"  ");
                at = self.literal(ws, at);
                say(self.out, b"\n");
            }
        }
    }
}
