// Whether a rule of equations applies, seen from the left side: a test for each, over what the search looks at.
ghost use Rattle.std.specs.Prelude.{ℕ, ◌≡◌, true, not, ◌||◌, List};
ghost use Rattle.language.specs.Trees.{Hedge, Conj, tv, hv, in_conj};
ghost use Rattle.rules.specs.Looks.{all_terms};
ghost use Rattle.rules.specs.Elements.{struck};
ghost use Rattle.rules.specs.Solved.{is_some};
ghost use Rattle.views.specs.Looks.{look_of};
ghost use Rattle.views.specs.Standing.{Stands};
ghost use Rattle.views.specs.Views.{Sees};
ghost use Rattle.counts.specs.Tables.{afresh};
ghost use Rattle.applies.specs.Parts.{lone_variable, lone_run, lone_functor, variable_of, run_of, children_of};
ghost use Rattle.applies.specs.Tests.{Asks, test_r1, test_f1, test_f2, test_f3, test_f4, test_del1, one_shuffled, test_del2, test_del3, test_d1, test_d2, test_d0, test_e1, test_e2, test_e3, test_e4, blanks_in, test_e5, test_e6, test_e7};

use crate::counted::elsewhere;
use crate::looks::{
    blank_of, is_bare, is_blank, is_empty, is_last, is_run, is_symbol, is_term, keeps_order,
    lone_functor, lone_run, lone_variable, name_in, run_of, same_name, single, symbol_of,
    variable_of,
};
use bools::{and, or};
use counts::TABLE;
use finds::{all_terms, up_to};
use language::{Signature, any_unordered, function_word, is_unordered, run_word, term_word};
use plans::inner;
use sharing::first_shared;
use spots::{has_term, inside, under};
use views::View;
use words::{same_part, stands};

// R1: the same words.
pub fn r1(k: &[u16], v: View) -> bool
    ensures { Asks test_r1 k.now v result }
{
    same_part(k, v.l.from, v.l.to, v.r.from, v.r.to)
}

// F1: x against a hedge that has x below a functor at its top.
pub fn f1(k: &[u16], v: View) -> bool
    ensures { Asks test_f1 k.now v result }
{
    let l = v.l;
    let a = l.look;
    let below = under(k, v.r.from, variable_of(a));
    and(lone_variable(a), below)
}

// F2: p against a hedge that has a term and holds p.
pub fn f2(k: &[u16], v: View) -> bool
    ensures { Asks test_f2 k.now v result }
{
    let l = v.l;
    let a = l.look;
    let terms = has_term(k, v.r.from);
    let held = stands(k, v.r.from, v.r.to, run_word(run_of(a)));
    and(lone_run(a), and(terms, held))
}

// F3: single terms with different symbols.
pub fn f3(k: &[u16], v: View) -> bool
    ensures { Asks test_f3 k.now v result }
{
    let l = v.l;
    let r = v.r;
    let a = l.look;
    let b = r.look;
    let f = name_in(a);
    let g = name_in(b);
    let c = symbol_of(f);
    let d = symbol_of(g);
    let clash = and(is_symbol(f), and(is_symbol(g), c.0 != d.0));
    and(lone_functor(a), and(lone_functor(b), clash))
}

// F4: nothing against a hedge that has a term.
pub fn f4(k: &[u16], v: View) -> bool
    ensures { Asks test_f4 k.now v result }
{
    let l = v.l;
    let a = l.look;
    let terms = has_term(k, v.r.from);
    and(is_empty(a), terms)
}

// Del1: the same hedge variable in front of both.
pub fn del1(k: &[u16], v: View) -> bool
    ensures { Asks test_del1 k.now v result }
{
    let l = v.l;
    let r = v.r;
    let a = l.look;
    let b = r.look;
    let p = run_of(a);
    let q = run_of(b);
    and(is_run(a), and(is_run(b), p.0 == q.0))
}

// Single terms with one and the same symbol, an unordered one.
fn shuffled(k: &[u16], v: View, signature: Signature) -> bool
    ensures { Asks (one_shuffled signature) k.now v result }
{
    let l = v.l;
    let r = v.r;
    let a = l.look;
    let b = r.look;
    let f = name_in(a);
    let g = name_in(b);
    let c = symbol_of(f);
    let d = symbol_of(g);
    let same = and(c.0 == d.0, is_unordered(signature, c));
    let symbols = and(is_symbol(f), and(is_symbol(g), same));
    and(lone_functor(a), and(lone_functor(b), symbols))
}

// Of single terms, the children share an element.
fn children_shared(k: &[u16], v: View) -> bool
    ensures { (before behind : Conj) (l r : Hedge) → Sees k.now v before l r behind → lone_functor (look_of l) ≡ true → lone_functor (look_of r) ≡ true → result ≡ is_some (struck (children_of l) (children_of r)) }
{
    let c = inner(k, v.l.from, v.l.to);
    let d = inner(k, v.r.from, v.r.to);
    first_shared(k, c.from, d.from).is_some()
}

// Of a single term, the children are terms.
pub fn child_terms(k: &[u16], from: usize) -> bool
    ensures { (h : Hedge) (beyond : List ℕ) → Stands k.now from h beyond → lone_functor (look_of h) ≡ true → result ≡ all_terms (children_of h) }
{
    let c = inner(k, from, from);
    let terms = all_terms(k, c.from);
    terms.all
}

// Del2: single terms with one unordered symbol, whose children share an element.
pub fn del2(k: &[u16], v: View, signature: Signature) -> bool
    ensures { Asks (test_del2 signature) k.now v result }
{
    let one = shuffled(k, v, signature);
    and(one, children_shared(k, v))
}

// Del3: p against a hedge that has p behind another element.
pub fn del3(k: &[u16], v: View) -> bool
    ensures { Asks test_del3 k.now v result }
{
    let l = v.l;
    let a = l.look;
    let spot = inside(k, v.r.from, run_of(a));
    and(lone_run(a), spot.is_some())
}

// D1: single terms with one unordered symbol, whose children share no element; on the right they are terms.
pub fn d1(k: &[u16], v: View, signature: Signature) -> bool
    ensures { Asks (test_d1 signature) k.now v result }
{
    let one = shuffled(k, v, signature);
    let terms = child_terms(k, v.r.from);
    let shared = children_shared(k, v);
    and(one, and(terms, !shared))
}

// D2: terms in front of both, and something behind one of them.
pub fn d2(k: &[u16], v: View) -> bool
    ensures { Asks test_d2 k.now v result }
{
    let l = v.l;
    let r = v.r;
    let a = l.look;
    let b = r.look;
    let ends = and(is_last(a), is_last(b));
    and(is_term(a), and(is_term(b), !ends))
}

// D0: single terms with the same functor, whose children stay in order.
pub fn d0(k: &[u16], v: View, signature: Signature) -> bool
    ensures { Asks (test_d0 signature) k.now v result }
{
    let l = v.l;
    let r = v.r;
    let a = l.look;
    let b = r.look;
    let f = name_in(a);
    let same = and(same_name(f, name_in(b)), keeps_order(signature, f));
    and(lone_functor(a), and(lone_functor(b), same))
}

// Where the right side is one term variable, it is in the others too.
fn variable_too(k: &[u16], table: &[u16; TABLE], v: View) -> bool
    requires { table.now ≡ afresh k.now }
    ensures { Asks (λ K l r. not (lone_variable (look_of r)) || in_conj (tv (variable_of (look_of r))) K) k.now v result }
{
    let r = v.r;
    let b = r.look;
    let there = elsewhere(k, table, v.at, v.end, term_word(variable_of(b)));
    let lone = lone_variable(b);
    or(!lone, there)
}

// E1: x against a term without it, and the variables elsewhere too.
pub fn e1(k: &[u16], table: &[u16; TABLE], v: View) -> bool
    requires { table.now ≡ afresh k.now }
    ensures { Asks test_e1 k.now v result }
{
    let l = v.l;
    let r = v.r;
    let a = l.look;
    let b = r.look;
    let x = term_word(variable_of(a));
    let held = stands(k, r.from, r.to, x);
    let there = elsewhere(k, table, v.at, v.end, x);
    let bound = and(!held, and(there, variable_too(k, table, v)));
    and(lone_variable(a), and(single(b), bound))
}

// Where the right side is one hedge variable, it is in the others too.
fn run_too(k: &[u16], table: &[u16; TABLE], v: View) -> bool
    requires { table.now ≡ afresh k.now }
    ensures { Asks (λ K l r. not (lone_run (look_of r)) || in_conj (hv (run_of (look_of r))) K) k.now v result }
{
    let r = v.r;
    let b = r.look;
    let there = elsewhere(k, table, v.at, v.end, run_word(run_of(b)));
    let lone = lone_run(b);
    or(!lone, there)
}

// E2: p against a hedge without it, and the variables elsewhere too.
pub fn e2(k: &[u16], table: &[u16; TABLE], v: View) -> bool
    requires { table.now ≡ afresh k.now }
    ensures { Asks test_e2 k.now v result }
{
    let l = v.l;
    let a = l.look;
    let x = run_word(run_of(a));
    let held = stands(k, v.r.from, v.r.to, x);
    let there = elsewhere(k, table, v.at, v.end, x);
    and(lone_run(a), and(!held, and(there, run_too(k, table, v))))
}

// E3: p and more against terms alone, without p.
pub fn e3(k: &[u16], v: View) -> bool
    ensures { Asks test_e3 k.now v result }
{
    let l = v.l;
    let a = l.look;
    let terms = all_terms(k, v.r.from);
    let held = stands(k, v.r.from, v.r.to, run_word(run_of(a)));
    let last = is_last(a);
    and(is_run(a), and(!last, and(terms.all, !held)))
}

// E4: p and more against terms up to one that holds p.
pub fn e4(k: &[u16], v: View) -> bool
    ensures { Asks test_e4 k.now v result }
{
    let l = v.l;
    let a = l.look;
    let ahead = up_to(k, v.r.from, run_of(a));
    let last = is_last(a);
    and(is_run(a), and(!last, ahead.is_some()))
}

// The function variable of the left side is in the others, and that of the right side too.
fn blanks_elsewhere(k: &[u16], table: &[u16; TABLE], v: View) -> bool
    requires { table.now ≡ afresh k.now }
    ensures { Asks blanks_in k.now v result }
{
    let l = v.l;
    let r = v.r;
    let a = l.look;
    let b = r.look;
    let g = name_in(b);
    let first = elsewhere(k, table, v.at, v.end, function_word(blank_of(name_in(a))));
    let second = elsewhere(k, table, v.at, v.end, function_word(blank_of(g)));
    and(first, or(is_symbol(g), second))
}

// E5: X() against F(), another functor, and the variables elsewhere too.
pub fn e5(k: &[u16], table: &[u16; TABLE], v: View) -> bool
    requires { table.now ≡ afresh k.now }
    ensures { Asks test_e5 k.now v result }
{
    let l = v.l;
    let r = v.r;
    let a = l.look;
    let b = r.look;
    let f = name_in(a);
    let symbol = is_symbol(f);
    let same = is_blank(blank_of(f), name_in(b));
    let bound = and(!same, blanks_elsewhere(k, table, v));
    let bare = and(is_bare(a), and(is_bare(b), bound));
    and(lone_functor(a), and(!symbol, and(lone_functor(b), bare)))
}

// E6: X(..) against F(..), another functor, not both without children.
pub fn e6(k: &[u16], v: View) -> bool
    ensures { Asks test_e6 k.now v result }
{
    let l = v.l;
    let r = v.r;
    let a = l.look;
    let b = r.look;
    let f = name_in(a);
    let symbol = is_symbol(f);
    let same = is_blank(blank_of(f), name_in(b));
    let bare = and(is_bare(a), is_bare(b));
    and(
        lone_functor(a),
        and(!symbol, and(lone_functor(b), and(!bare, !same))),
    )
}

// E7: X(..) against X(..) with other words, where some symbol is unordered.
pub fn e7(k: &[u16], v: View, signature: Signature) -> bool
    ensures { Asks (test_e7 signature) k.now v result }
{
    let l = v.l;
    let r = v.r;
    let a = l.look;
    let b = r.look;
    let f = name_in(a);
    let g = name_in(b);
    let left = is_symbol(f);
    let right = is_symbol(g);
    let x = blank_of(f);
    let y = blank_of(g);
    let same = r1(k, v);
    let every = and(!same, any_unordered(signature));
    let blanks = and(!right, and(x.0 == y.0, every));
    and(lone_functor(a), and(!left, and(lone_functor(b), blanks)))
}
