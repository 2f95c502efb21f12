// What a line says of a variable: the expression of its membership, and what an equation binds it to.
ghost use Rattle.std.specs.Prelude.{◌<◌, ◌≡◌, [], ◌++◌, length};
ghost use Rattle.language.specs.Trees.{Hedge, Literal, Conj, Var};
ghost use Rattle.views.specs.Views.{Sees};
ghost use Rattle.rules.specs.Solved.{variable, alone, solves};
ghost use Rattle.rules.specs.Example.{binds, bound};
ghost use Rattle.views.specs.Variables.{variable_word};
ghost use Rattle.values.specs.Lines.{var_of, Named, Line, Told, Expressed, Held};
ghost use Rattle.values.specs.Binding.{sole_word, BoundBy};
ghost use Rattle.views.specs.Standing.{LiteralAt};

use crate::Variable;
use alone::{alone_side, lone_word, side_variable};
use language::{function_word, run_word, term_word};
use views::{View, see, side_at, swapped};
use words::{next_literal, stands};

// The words from one place to another.
#[derive(Clone, Copy)]
pub struct Part {
    pub from: usize,
    pub to: usize,
}

// The word of a variable.
fn word_of(x: Variable) -> usize
    ensures { result ≡ variable_word (var_of x) }
{
    match x {
        Variable::Term(y) => term_word(y),
        Variable::Run(p) => run_word(p),
        Variable::Function(f) => function_word(f),
    }
}

// ---- where a variable stands

// The place of the expression of the literal at a place, where it is a membership that holds a variable, and 0 where it is not.
fn expression_at(k: &[u16], at: usize, x: Variable) -> usize
    requires { at < length k.now }
    ensures { (before : Conj) (l : Literal) (behind : Conj) (v : Var) → LiteralAt k.now at before l behind → Named v x → Told k.now l behind v result }
{
    if k[at] != 6000 {
        return 0;
    }
    let h = side_at(k, at + 1);
    let e = h.to;
    if stands(k, at + 1, e, word_of(x)) {
        return e;
    }
    0
}

// The place of the expression of the first membership that holds a variable.
pub(crate) fn expression_of(k: &[u16], x: Variable) -> Option<usize>
    ensures { (c : Conj) (v : Var) → Line k.now c → Named v x → Expressed k.now c v result }
{
    let mut at = 0;
    while at < k.len() {
        let e = expression_at(k, at, x);
        if e != 0 {
            return Some(e);
        }
        at = next_literal(k, at);
    }
    None
}

// The place of the first literal that holds a variable.
fn holder(k: &[u16], x: Variable) -> Option<usize>
    ensures { (c : Conj) (v : Var) → Line k.now c → Named v x → Held k.now c v result }
{
    let mut at = 0;
    while at < k.len() {
        let next = next_literal(k, at);
        if stands(k, at, next, word_of(x)) {
            return Some(at);
        }
        at = next;
    }
    None
}

// ---- what a variable is bound to

// The word of the variable that the side seen first solves, or 0.
fn solved_side(k: &[u16], v: View) -> usize
    ensures { (before : Conj) (l r : Hedge) (behind : Conj) → Sees k.now v before l r behind → result ≡ sole_word (alone (before ++ behind) r (variable l r)) }
{
    if alone_side(k, v) {
        let l = v.l;
        let r = v.r;
        let look = l.look;
        let against = r.look;
        return lone_word(side_variable(look, against));
    }
    0
}

// The part that the literal at a place binds a variable to.
fn bound_in(k: &[u16], at: usize, x: Variable) -> Option<Part>
    ensures { (before : Conj) (l : Literal) (behind : Conj) (v : Var) → LiteralAt k.now at before l behind → Named v x → BoundBy k.now (binds v (solves (before ++ behind) l)) result }
{
    if k.len() <= at {
        return None;
    }
    if k[at] != 5000 {
        return None;
    }
    let v = see(k, at);
    let y = solved_side(k, v);
    let w = word_of(x);
    if y == w {
        let r = v.r;
        return Some(Part {
            from: r.from,
            to: r.to,
        });
    }
    if y != 0 {
        return None;
    }
    let u = swapped(v);
    let z = solved_side(k, u);
    if z == w {
        let l = u.r;
        return Some(Part {
            from: l.from,
            to: l.to,
        });
    }
    None
}

// The part that a variable is bound to in its line.
pub(crate) fn bound_to(k: &[u16], x: Variable) -> Option<Part>
    ensures { (c : Conj) (v : Var) → Line k.now c → Named v x → BoundBy k.now (bound v [] c) result }
{
    let p = holder(k, x);
    match p {
        Some(at) => bound_in(k, at, x),
        None => None,
    }
}
