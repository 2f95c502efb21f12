// The clash among the literals of a conjunction, in its words: the earliest test of a lone variable that clashes with a later one.
#![tactic(auto)]

ghost use Rattle.std.specs.Prelude.{◌+◌, ◌≤◌, ◌<◌, ◌≡◌, length};
ghost use Rattle.std.proofs.Math.Seq.{slice};
ghost use Rattle.language.specs.Limits.{desk};
ghost use Rattle.language.specs.Kinds.{kind_of};
ghost use Rattle.language.specs.Trees.{Literal, Conj};
ghost use Rattle.language.specs.Writing.{conj_words};
ghost use Rattle.language.specs.Fine.{fine_conj};
ghost use Rattle.views.specs.Standing.{LiteralAt, SomeLiteral, Conjunction};
ghost use Rattle.clash.specs.Judging.{Two};
ghost use Rattle.clashes.specs.Pairs.{kind_unordered, some_unordered, lone_of, lone_kind, is_term, same_lone, Tested, reply_of, first_clash};

use clash::{Verdict, judge};
use language::{HedgeVar, Kind, Signature, TermVar, classify, is_unordered};
use words::{next_literal, word};

// What stands before the expression of a lone variable's test: its mark, the variable and the end of the hedge.
const BEFORE_TEST: usize = 3;

// Whether a word is that of an unordered symbol.
fn unordered_word(x: u16, s: Signature) -> bool
    ensures { result ≡ kind_unordered s (kind_of desk x) }
{
    match classify(x) {
        Kind::Symbol(f) => is_unordered(s, f),
        _ => false,
    }
}

// Whether an unordered symbol stands among the words from one place to another.
fn mentions(k: &[u16], from: usize, to: usize, s: Signature) -> bool
    requires { to ≤ length k.now }
    ensures { result ≡ some_unordered s (slice from to k.now) }
{
    for i in from..to {
        if unordered_word(k[i], s) {
            return true;
        }
    }
    false
}

// The variable that is tested, where it stands alone.
#[derive(Clone, Copy)]
enum Lone {
    Nothing,
    Term(TermVar),
    Run(HedgeVar),
}

fn lone_word(x: u16) -> Lone
    ensures { result ≡ lone_kind (kind_of desk x) }
{
    match classify(x) {
        Kind::Term(y) => Lone::Term(y),
        Kind::Run(p) => Lone::Run(p),
        _ => Lone::Nothing,
    }
}

// Of the literal at a place.
fn lone_at(k: &[u16], at: usize) -> Lone
    requires { at < length k.now }
    ensures { (before : Conj) (l : Literal) (behind : Conj) → LiteralAt k.now at before l behind → result ≡ lone_of l }
{
    if k[at] == 5000 {
        return Lone::Nothing;
    }
    if word(k, at + 2) == 0 {
        return lone_word(word(k, at + 1));
    }
    Lone::Nothing
}

fn is_term(x: Lone) -> bool
    ensures { result ≡ is_term x }
{
    match x {
        Lone::Nothing => false,
        Lone::Term(_) => true,
        Lone::Run(_) => false,
    }
}

fn same_lone(a: Lone, b: Lone) -> bool
    ensures { result ≡ same_lone a b }
{
    match a {
        Lone::Nothing => false,
        Lone::Term(x) => match b {
            Lone::Nothing => false,
            Lone::Term(y) => x.0 == y.0,
            Lone::Run(_) => false,
        },
        Lone::Run(p) => match b {
            Lone::Nothing => false,
            Lone::Term(_) => false,
            Lone::Run(q) => p.0 == q.0,
        },
    }
}

// Two tests of one variable, from their expressions to their ends: where an unordered symbol is mentioned they are passed over.
fn test_pair(
    k: &[u16],
    at: usize,
    end: usize,
    other: usize,
    last: usize,
    term: bool,
    s: Signature,
) -> Verdict
    requires k_len_bound { (length k.now ≤ desk.question) × (end ≤ length k.now) × (last ≤ length k.now) }
    requires two { Two k.now at other }
    ensures { Tested k.now at end other last term s result }
{
    if mentions(k, at, end, s) {
        return Verdict::Shares;
    }
    if mentions(k, other, last, s) {
        return Verdict::Shares;
    }
    judge(k, at, other, term)
}

// The literal at a place, with each test of the same variable behind it, until one clashes or cannot be told.
pub fn test_behind(k: &[u16], at: usize, s: Signature) -> Verdict
    requires at_in_bounds { (at < length k.now) × (length k.now ≤ desk.question) }
    requires some_literal { SomeLiteral k.now at }
    ensures { (before : Conj) (l : Literal) (behind : Conj) → LiteralAt k.now at before l behind → result ≡ reply_of s l behind }
{
    let x = lone_at(k, at);
    let term = is_term(x);
    let end = next_literal(k, at);
    let mut j = end;
    while j < k.len() {
        let next = next_literal(k, j);
        let y = lone_at(k, j);
        if same_lone(x, y) {
            match test_pair(k, at + BEFORE_TEST, end, j + BEFORE_TEST, next, term, s) {
                Verdict::Shares => {}
                Verdict::Clashes => return Verdict::Clashes,
                Verdict::Long => return Verdict::Long,
            }
        }
        j = next;
    }
    Verdict::Shares
}

// Where the clash applies: nowhere, at the literal of that place, or it cannot be told there.
#[derive(Clone, Copy)]
pub enum Clashing {
    Nowhere,
    At(usize),
    Stopped,
}

// The first literal at which the clash applies or cannot be told.
pub fn first_clash(k: &[u16], s: Signature) -> Clashing
    requires k_len_bound { length k.now ≤ desk.question }
    requires conjunction { Conjunction k.now }
    ensures { (c : Conj) → fine_conj desk c → k.now ≡ conj_words c → result ≡ first_clash s 0 c }
{
    let mut i = 0;
    while i < k.len() {
        match test_behind(k, i, s) {
            Verdict::Shares => {}
            Verdict::Clashes => return Clashing::At(i),
            Verdict::Long => return Clashing::Stopped,
        }
        i = next_literal(k, i);
    }
    Clashing::Nowhere
}
