// What is looked for along the elements of a hedge in a conjunction's words: terms alone, and the terms up to one that holds a hedge variable. The laws of
// such walks stand here, for those of `spots` too.
#![tactic(auto)]

ghost use Rattle.std.specs.Prelude.{ℕ, ◌+◌, ◌≤◌, ◌<◌, ◌≡◌, List, length, IfSome};
ghost use Rattle.language.specs.declared.HedgeVar.{HedgeVar};
ghost use Rattle.language.specs.Limits.{desk};
ghost use Rattle.language.specs.Trees.{Hedge, hv};
ghost use Rattle.views.specs.Variables.{variable_word, fine_var};
ghost use Rattle.views.specs.Standing.{Stands};
ghost use Rattle.finds.specs.Walks.{term_word, Counted, Ahead};
ghost use Rattle.finds.specs.Places.{AllTerms, UpTo};

use language::{HedgeVar, Kind, classify, run_word};
use spans::element_end;
use words::{stands, word};

// Whether a hedge is terms alone, and how many.
// kept: `AllTerms` tells the count where other elements follow too, so that it is no `Option` of one.
#[derive(Clone, Copy)]
pub struct Terms {
    pub all: bool,
    pub count: usize,
}

fn is_term(x: u16) -> bool
    ensures { result ≡ term_word x }
{
    match classify(x) {
        Kind::Term(_) | Kind::Symbol(_) | Kind::Function(_) => true,
        _ => false,
    }
}

// Whether it is terms alone, and how many.
pub fn all_terms(k: &[u16], at: usize) -> Terms
    ensures { ((h : Hedge) (beyond : List ℕ) → Stands k.now at h beyond → Counted result h) × (result.count ≤ length k.now) × AllTerms k.now at result }
{
    let mut i = at;
    let mut n: usize = 0;
    let mut x = word(k, at);
    // kept: the place goes on by where an element ends; n only counts those passed.
    while is_term(x) {
        i = element_end(k, i);
        n += 1;
        x = word(k, i);
    }
    Terms {
        all: x == 0,
        count: n,
    }
}

// How many terms stand before the first that holds the hedge variable whose word is p, where they stand up to one.
fn up_to_word(k: &[u16], at: usize, p: usize) -> Option<usize>
    ensures { ((q : HedgeVar) (h : Hedge) (beyond : List ℕ) → fine_var desk (hv q) → p ≡ variable_word (hv q) → Stands k.now at h beyond → Ahead q result h) × IfSome result (λ n. n ≤ length k.now) × UpTo k.now at p result }
{
    let mut i = at;
    let mut n: usize = 0;
    let mut x = word(k, at);
    // kept: the place goes on by where an element ends; n only counts those passed.
    while is_term(x) {
        let e = element_end(k, i);
        if stands(k, i, e, p) {
            return Some(n);
        }
        i = e;
        n += 1;
        x = word(k, i);
    }
    None
}

// How many terms stand before the first that holds the hedge variable, where they stand up to one.
pub fn up_to(k: &[u16], at: usize, p: HedgeVar) -> Option<usize>
    ensures { ((h : Hedge) (beyond : List ℕ) → p.0 < desk.each → Stands k.now at h beyond → Ahead p result h) × IfSome result (λ n. n ≤ length k.now) × UpTo k.now at (2000 + p.0) result }
{
    up_to_word(k, at, run_word(p))
}
