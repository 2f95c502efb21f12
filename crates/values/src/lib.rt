// The value of a variable of a line, as words: measured first, then written straight to its place. A variable that an equation solves follows
// from it; any other has the sample of its expression, or a default.
#![tactic(auto)]

mod bindings;

ghost use Rattle.std.specs.Prelude.{◌+◌, ◌<◌, ◌≤◌, ◌≡◌, length};
ghost use Rattle.std.proofs.Math.Seq.{slice};
ghost use Rattle.language.specs.declared.Sym.{Sym};
ghost use Rattle.language.specs.Limits.{desk};
ghost use Rattle.language.specs.Trees.{Conj, Var};
ghost use Rattle.rules.specs.Example.{default, unsolved};
ghost use Rattle.samples.specs.Bodies.{body};
ghost use Rattle.samples.specs.Laid.{Laid};
ghost use Rattle.values.specs.Lines.{var_of, Named, Line};
ghost use Rattle.values.specs.Spelling.{becomes, spelled, HedgeWord, HedgeWords, runs};
ghost use Rattle.values.specs.Values.{Settled, SettledLine, value_words, UnsolvedLength, WordLength, PartLength, ValueLength};

use bindings::{bound_to, expression_of};
use language::{FunVar, HedgeVar, Kind, Sym, TermVar, classify};
use samples::{measure, put, write_sample};

// A variable of any kind.
#[derive(Clone, Copy)]
pub enum Variable {
    Term(TermVar),
    Run(HedgeVar),
    Function(FunVar),
}

// ---- a variable that no equation solves

// The word of a symbol.
fn symbol_word(f: Sym) -> u16
    requires { f.0 < desk.each }
    ensures { result ≡ 3000 + f.0 }
{
    3000 + f.0
}

fn is_run(x: Variable) -> bool
    ensures { result ≡ runs (var_of x) }
{
    match x {
        Variable::Term(_) => false,
        Variable::Run(_) => true,
        Variable::Function(_) => false,
    }
}

fn default_len(x: Variable) -> usize
    ensures { (result ≤ 2) × ((any : Sym) (v : Var) → Named v x → result ≡ length (body (default any v))) }
{
    if is_run(x) { 0 } else { 2 }
}

// A blank that nothing asks anything of takes the symbol `any`, a run of parts none.
fn write_default(x: Variable, any: Sym, out: &mut [u16], at: usize) -> usize
    requires { any.0 < desk.each }
    ensures { (v : Var) → Named v x → Laid out.old at (body (default any v)) out.new result }
{
    if is_run(x) {
        return at;
    }
    let d = symbol_word(any);
    let e = put(out, at, d);
    put(out, e, 0)
}

fn unsolved_len(k: &[u16], x: Variable) -> usize
    ensures { UnsolvedLength k.now x result }
{
    let p = expression_of(k, x);
    match p {
        Some(e) => {
            let s = measure(k, e);
            s.words
        }
        None => default_len(x),
    }
}

fn write_unsolved(k: &[u16], x: Variable, any: Sym, out: &mut [u16], at: usize) -> usize
    requires { any.0 < desk.each }
    ensures { (c : Conj) (v : Var) → Line k.now c → Named v x → Laid out.old at (body (unsolved any c v)) out.new result }
{
    let p = expression_of(k, x);
    match p {
        Some(e) => {
            let w = write_sample(k, e, out, at);
            w.to
        }
        None => write_default(x, any, out, at),
    }
}

// ---- a hedge, word by word

// How many words a word of a hedge becomes.
fn word_len(k: &[u16], x: u16) -> usize
    ensures { WordLength k.now x result }
{
    match classify(x) {
        Kind::Term(y) => unsolved_len(k, Variable::Term(y)),
        Kind::Run(p) => unsolved_len(k, Variable::Run(p)),
        _ => 1,
    }
}

fn write_word(k: &[u16], x: u16, any: Sym, out: &mut [u16], at: usize) -> usize
    requires { any.0 < desk.each }
    ensures { (c : Conj) → Line k.now c → Settled c → HedgeWord x → Laid out.old at (becomes (unsolved any c) x) out.new result }
{
    match classify(x) {
        Kind::Term(y) => write_unsolved(k, Variable::Term(y), any, out, at),
        Kind::Run(p) => write_unsolved(k, Variable::Run(p), any, out, at),
        Kind::Function(_) => {
            let d = symbol_word(any);
            put(out, at, d)
        }
        _ => put(out, at, x),
    }
}

// How many words a part becomes.
fn part_len(k: &[u16], from: usize, to: usize) -> usize
    requires { length k.now ≤ 65536 }
    ensures { PartLength k.now from to result }
{
    let mut n: usize = 0;
    for i in from..to {
        if k.len() <= i {
            return n;
        }
        n += word_len(k, k[i]);
    }
    n
}

fn write_part(k: &[u16], from: usize, to: usize, any: Sym, out: &mut [u16], at: usize) -> usize
    requires { any.0 < desk.each }
    ensures { (c : Conj) → Line k.now c → Settled c → HedgeWords (slice from to k.now) → Laid out.old at (spelled (becomes (unsolved any c)) (slice from to k.now)) out.new result }
{
    let mut e = at;
    for i in from..to {
        if k.len() <= i {
            return e;
        }
        e = write_word(k, k[i], any, out, e);
    }
    e
}

// ---- the value of a variable

// How many words the value of a variable has.
pub fn value_len(k: &[u16], x: Variable) -> usize
    requires { (length k.now ≤ 65536) × SettledLine k.now × Named (var_of x) x }
    ensures { ValueLength k.now x result }
{
    let b = bound_to(k, x);
    match b {
        Some(p) => part_len(k, p.from, p.to),
        None => unsolved_len(k, x) + 1,
    }
}

// Writes the value of a variable, where there is room for it. Free blanks take the symbol `any`.
pub fn write_value(k: &[u16], x: Variable, any: Sym, out: &mut [u16], at: usize) -> usize
    requires { SettledLine k.now × Named (var_of x) x × (any.0 < desk.each) }
    ensures { (c : Conj) (v : Var) → Line k.now c → Settled c → Named v x → Laid out.old at (value_words any c v) out.new result }
{
    let b = bound_to(k, x);
    match b {
        Some(p) => write_part(k, p.from, p.to, any, out, at),
        None => {
            let e = write_unsolved(k, x, any, out, at);
            put(out, e, 0)
        }
    }
}
