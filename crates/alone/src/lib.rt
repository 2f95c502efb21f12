// The one variable that a side of an equation is, and whether it stands nowhere else.
#![tactic(auto)]

ghost use Rattle.std.specs.Prelude.{◌≡◌};
ghost use Rattle.alone.specs.Lone.{single_term, bare_functor, lone, side_variable, lone_word, alone_side};

use bools::{and, neither};
use language::{FunVar, HedgeVar, Name, TermVar, function_word, run_word, term_word};
use views::{Look, View};
use words::{elsewhere, stands};

// A variable, by its kind.
#[derive(Clone, Copy)]
pub enum Variable {
    Term(TermVar),
    Run(HedgeVar),
    Blank(FunVar),
}

fn chosen(t: bool, x: Variable) -> Option<Variable>
    ensures { result ≡ lone t x }
{
    if t { Some(x) } else { None }
}

fn single_term(look: Look) -> bool
    ensures { result ≡ single_term look }
{
    match look {
        Look::Empty => false,
        Look::Term(_, last) => last,
        Look::Run(_, _) => false,
        Look::Node(_, last, _) => last,
    }
}

fn bare_functor(look: Look) -> bool
    ensures { result ≡ bare_functor look }
{
    match look {
        Look::Empty => false,
        Look::Term(_, _) => false,
        Look::Run(_, _) => false,
        Look::Node(_, last, bare) => and(bare, last),
    }
}

// The one variable that a side is, against the other side.
pub fn side_variable(l: Look, r: Look) -> Option<Variable>
    ensures { result ≡ side_variable l r }
{
    match l {
        Look::Empty => None,
        Look::Term(x, last) => chosen(and(last, single_term(r)), Variable::Term(x)),
        Look::Run(p, last) => chosen(last, Variable::Run(p)),
        Look::Node(name, last, bare) => match name {
            Name::Symbol(_) => None,
            Name::Blank(f) => chosen(and(bare, and(last, bare_functor(r))), Variable::Blank(f)),
        },
    }
}

// The word of the variable, or 0 where there is none.
pub fn lone_word(x: Option<Variable>) -> usize
    ensures { result ≡ lone_word x }
{
    let Some(v) = x else {
        return 0;
    };
    match v {
        Variable::Term(x) => term_word(x),
        Variable::Run(p) => run_word(p),
        Variable::Blank(f) => function_word(f),
    }
}

// Whether the side that is looked at first is one variable whose word stands nowhere else.
pub fn alone_side(k: &[u16], v: View) -> bool
    ensures { result ≡ alone_side k.now v }
{
    let l = v.l;
    let r = v.r;
    let a = l.look;
    let b = r.look;
    let x = lone_word(side_variable(a, b));
    if x == 0 {
        return false;
    }
    let here = stands(k, r.from, r.to, x);
    let there = elsewhere(k, v.at, v.end, x);
    neither(here, there)
}
