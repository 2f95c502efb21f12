// Whether a rule of memberships applies: a test for each, over what the search looks at.
ghost use Rattle.std.specs.Prelude.{◌≡◌};
ghost use Rattle.applies.specs.Parts.{form_word, symbol_in};
ghost use Rattle.applies.specs.Tests.{AsksIn, single_in, test_r2, test_f5, test_f6, test_f7, test_m1, test_m2, test_m3, test_m7, test_m10, test_m11, test_m12};

use crate::equation::child_terms;
use crate::looks::{
    form_word, is_empty, is_last, is_run, is_symbol, is_term, lone_functor, name_in, single,
    symbol_in, symbol_of,
};
use bools::and;
use expressions::pass;
use language::{Signature, Sym, is_unordered};
use spots::has_term;
use views::Shape;

// What the expression begins with.
fn form_of(s: Shape) -> usize
    ensures { result ≡ form_word s.first }
{
    let first = s.first;
    form_word(first)
}

// The symbol that it begins with.
fn symbol_at(s: Shape) -> Sym
    ensures { result ≡ symbol_in s.first }
{
    let first = s.first;
    symbol_in(first)
}

// R2: nothing, in an expression that has the empty hedge.
pub fn r2(k: &[u16], s: Shape) -> bool
    ensures { AsksIn test_r2 k.now s result }
{
    let h = s.h;
    let a = h.look;
    let p = pass(k, s.expr);
    and(is_empty(a), p.null)
}

// F5: f(H) in g(R), another symbol.
pub fn f5(k: &[u16], s: Shape) -> bool
    ensures { AsksIn test_f5 k.now s result }
{
    let h = s.h;
    let a = h.look;
    let f = name_in(a);
    let c = symbol_of(f);
    let d = symbol_at(s);
    let clash = and(form_of(s) == 3000, c.0 != d.0);
    and(lone_functor(a), and(is_symbol(f), clash))
}

// F6: nothing, in an expression without the empty hedge.
pub fn f6(k: &[u16], s: Shape) -> bool
    ensures { AsksIn test_f6 k.now s result }
{
    let h = s.h;
    let a = h.look;
    let p = pass(k, s.expr);
    let null = p.null;
    and(is_empty(a), !null)
}

// F7: a hedge that has a term, in eps.
pub fn f7(k: &[u16], s: Shape) -> bool
    ensures { AsksIn test_f7 k.now s result }
{
    let terms = has_term(k, s.h.from);
    and(terms, form_of(s) == 7000)
}

// M1: hedge variables alone, in eps.
pub fn m1(k: &[u16], s: Shape) -> bool
    ensures { AsksIn test_m1 k.now s result }
{
    let h = s.h;
    let a = h.look;
    let none = is_empty(a);
    let terms = has_term(k, h.from);
    and(!none, and(!terms, form_of(s) == 7000))
}

// M2: a term and more, in what is not eps.
pub fn m2(k: &[u16], s: Shape) -> bool
    ensures { AsksIn test_m2 k.now s result }
{
    let h = s.h;
    let a = h.look;
    let last = is_last(a);
    and(is_term(a), and(!last, form_of(s) != 7000))
}

// M3: p and more, in g(R).
pub fn m3(k: &[u16], s: Shape) -> bool
    ensures { AsksIn test_m3 k.now s result }
{
    let h = s.h;
    let a = h.look;
    let last = is_last(a);
    and(is_run(a), and(!last, form_of(s) == 3000))
}

// M4, M5, M6: one term in an expression that begins with the word x.
pub fn single_in(k: &[u16], s: Shape, x: usize) -> bool
    ensures { AsksIn (single_in x) k.now s result }
{
    let h = s.h;
    let a = h.look;
    and(single(a), form_of(s) == x)
}

// M7: a hedge that begins with p, in a choice.
pub fn m7(k: &[u16], s: Shape) -> bool
    ensures { AsksIn test_m7 k.now s result }
{
    let h = s.h;
    let a = h.look;
    and(is_run(a), form_of(s) == 7002)
}

// M10: X(H) in g(R).
pub fn m10(k: &[u16], s: Shape) -> bool
    ensures { AsksIn test_m10 k.now s result }
{
    let h = s.h;
    let a = h.look;
    let symbol = is_symbol(name_in(a));
    and(lone_functor(a), and(!symbol, form_of(s) == 3000))
}

// M11: f(H) in f(R), f ordered.
pub fn m11(k: &[u16], s: Shape, signature: Signature) -> bool
    ensures { AsksIn (test_m11 signature) k.now s result }
{
    let h = s.h;
    let a = h.look;
    let f = name_in(a);
    let c = symbol_of(f);
    let d = symbol_at(s);
    let shuffled = is_unordered(signature, c);
    let same = and(form_of(s) == 3000, and(c.0 == d.0, !shuffled));
    and(lone_functor(a), and(is_symbol(f), same))
}

// M12: f(T) in f(R), f unordered.
pub fn m12(k: &[u16], s: Shape, signature: Signature) -> bool
    ensures { AsksIn (test_m12 signature) k.now s result }
{
    let h = s.h;
    let a = h.look;
    let f = name_in(a);
    let c = symbol_of(f);
    let d = symbol_at(s);
    let terms = and(is_unordered(signature, c), child_terms(k, h.from));
    let same = and(form_of(s) == 3000, and(c.0 == d.0, terms));
    and(lone_functor(a), and(is_symbol(f), same))
}
