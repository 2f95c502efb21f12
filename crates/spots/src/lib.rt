// What stands along the elements of a hedge in a conjunction's words: a term at all, a variable below a functor, a hedge variable behind another element.
#![tactic(auto)]

ghost use Rattle.std.specs.Prelude.{ℕ, ◌+◌, ◌<◌, ◌≡◌, List};
ghost use Rattle.language.specs.declared.HedgeVar.{HedgeVar};
ghost use Rattle.language.specs.Limits.{desk};
ghost use Rattle.language.specs.Trees.{Hedge, Var, tv, hv};
ghost use Rattle.rules.specs.Looks.{has_term, under as below_top};
ghost use Rattle.views.specs.Variables.{variable_word, fine_var};
ghost use Rattle.views.specs.Standing.{Stands};
ghost use Rattle.finds.specs.Walks.{run_word, Spotted};
ghost use Rattle.finds.specs.Places.{HasTerm, Under, Inside};

use language::{HedgeVar, Kind, TermVar, classify, run_word, term_word};
use spans::element_end;
use words::{stands, word};

fn is_run(x: u16) -> bool
    ensures { result ≡ run_word x }
{
    match classify(x) {
        Kind::Run(_) => true,
        _ => false,
    }
}

// Whether the hedge at a place has a top-level term.
pub fn has_term(k: &[u16], at: usize) -> bool
    ensures { ((h : Hedge) (beyond : List ℕ) → Stands k.now at h beyond → result ≡ has_term h) × HasTerm k.now at result }
{
    let mut i = at;
    let mut x = word(k, at);
    while is_run(x) {
        i = element_end(k, i);
        x = word(k, i);
    }
    x != 0
}

// Whether a variable, whose word is v, stands below a functor at the top.
fn word_under(k: &[u16], at: usize, v: usize) -> bool
    ensures { ((y : Var) (h : Hedge) (beyond : List ℕ) → fine_var desk y → v ≡ variable_word y → Stands k.now at h beyond → result ≡ below_top y h) × Under k.now at v result }
{
    let mut i = at;
    let mut x = word(k, at);
    while x != 0 {
        let e = element_end(k, i);
        if stands(k, i + 1, e, v) {
            return true;
        }
        i = e;
        x = word(k, i);
    }
    false
}

// Whether a term variable stands below a functor at the top.
pub fn under(k: &[u16], at: usize, x: TermVar) -> bool
    ensures { ((h : Hedge) (beyond : List ℕ) → x.0 < desk.each → Stands k.now at h beyond → result ≡ below_top (tv x) h) × Under k.now at (1000 + x.0) result }
{
    word_under(k, at, term_word(x))
}

// Where the hedge variable whose word is p first stands at the top behind another element.
fn word_inside(k: &[u16], at: usize, p: usize) -> Option<usize>
    ensures { ((q : HedgeVar) (h : Hedge) (beyond : List ℕ) → fine_var desk (hv q) → p ≡ variable_word (hv q) → Stands k.now at h beyond → Spotted q at result h) × Inside k.now at p result }
{
    let mut i = element_end(k, at);
    let mut x = word(k, i);
    while x != 0 {
        if usize::from(x) == p {
            return Some(i);
        }
        i = element_end(k, i);
        x = word(k, i);
    }
    None
}

// Where the hedge variable first stands at the top behind another element.
pub fn inside(k: &[u16], at: usize, p: HedgeVar) -> Option<usize>
    ensures { ((h : Hedge) (beyond : List ℕ) → p.0 < desk.each → Stands k.now at h beyond → Spotted p at result h) × Inside k.now at (2000 + p.0) result }
{
    word_inside(k, at, run_word(p))
}
