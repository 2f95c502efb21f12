// The first rule at an equation whose left side is empty or begins with a term variable.
ghost use Rattle.std.specs.Prelude.{ℕ, ◌<◌, ◌≡◌, not, ◌&&◌, List, ◌++◌};
ghost use Rattle.language.specs.Limits.{desk};
ghost use Rattle.language.specs.Kinds.{pick};
ghost use Rattle.language.specs.Trees.{Functor, Hedge, ε, tvar, node, Conj, eq_t, tv, in_conj};
ghost use Rattle.rules.specs.Looks.{empty, under as below};
ghost use Rattle.rules.specs.Places.{at_e1, no_rule};
ghost use Rattle.views.specs.Views.{Sees};
ghost use Rattle.views.specs.Standing.{Stands};
ghost use Rattle.counts.specs.Tables.{Beside};
ghost use Rattle.equations.specs.Ranked.{Ranks};

use bools::and;
use counts::{TABLE, repeated};
use language::{TermVar, term_word};
use rules::places::{AT_D2, AT_E1, AT_F1, AT_F4, AT_R1, NO_RULE};
use spots::{has_term, under};
use views::{Look, Side, View};
use words::same_part;

// The left side is empty: R1, F4.
pub fn rank_empty(k: &[u16], v: View) -> usize
    ensures { (r : Hedge) (table : List ℕ) → Ranks k.now table v ε r result }
{
    let r = v.r;
    let look = r.look;
    match look {
        Look::Empty => AT_R1,
        Look::Term(_, _) => AT_F4,
        Look::Run(_, _) => {
            if has_term(k, r.from) {
                return AT_F4;
            }
            NO_RULE
        }
        Look::Node(_, _, _) => AT_F4,
    }
}

// F1: a lone x against a hedge with x below its top.
fn hidden(k: &[u16], lone: bool, at: usize, x: TermVar) -> bool
    ensures { (h : Hedge) (beyond : List ℕ) → x.0 < desk.each → Stands k.now at h beyond → result ≡ (lone && below (tv x) h) }
{
    if lone {
        return under(k, at, x);
    }
    false
}

// E1: two lone variables.
fn rank_variables(table: &[u16; TABLE], x: TermVar, z: TermVar) -> usize
    ensures { (K : Conj) → Beside table.now K (tvar x ε) (tvar z ε) → x.0 < desk.each → z.0 < desk.each → result ≡ pick (not (eq_t x z) && (in_conj (tv x) K && in_conj (tv z) K)) at_e1 no_rule }
{
    if x.0 == z.0 {
        return NO_RULE;
    }
    let first = repeated(table, term_word(x));
    let second = repeated(table, term_word(z));
    if and(first, second) {
        return AT_E1;
    }
    NO_RULE
}

// Both sides begin with a term variable: R1, F1, D2, E1.
fn rank_term_term(
    k: &[u16],
    table: &[u16; TABLE],
    v: View,
    x: TermVar,
    lone: bool,
    z: TermVar,
    more: bool,
) -> usize
    ensures { (s t : Hedge) → lone ≡ empty s → more ≡ empty t → Ranks k.now table.now v (tvar x s) (tvar z t) result }
{
    let l = v.l;
    let r = v.r;
    if same_part(k, l.from, l.to, r.from, r.to) {
        return AT_R1;
    }
    if hidden(k, lone, r.from, x) {
        return AT_F1;
    }
    if and(lone, more) {
        return rank_variables(table, x, z);
    }
    AT_D2
}

// A term variable against a functor: F1, D2, E1.
fn rank_term_node(
    k: &[u16],
    table: &[u16; TABLE],
    v: View,
    x: TermVar,
    lone: bool,
    more: bool,
) -> usize
    ensures { (s : Hedge) (G : Functor) (d t : Hedge) → lone ≡ empty s → more ≡ empty t → Ranks k.now table.now v (tvar x s) (node G d t) result }
{
    let r = v.r;
    if hidden(k, lone, r.from, x) {
        return AT_F1;
    }
    if and(lone, more) {
        if repeated(table, term_word(x)) {
            return AT_E1;
        }
        return NO_RULE;
    }
    AT_D2
}

// The left side begins with a term variable.
pub fn rank_term(k: &[u16], table: &[u16; TABLE], v: View, x: TermVar, lone: bool) -> usize
    ensures { (s r : Hedge) → lone ≡ empty s → Ranks k.now table.now v (tvar x s) r result }
{
    let r = v.r;
    let look = r.look;
    match look {
        Look::Empty => NO_RULE,
        Look::Term(z, more) => rank_term_term(k, table, v, x, lone, z, more),
        Look::Run(_, _) => {
            if hidden(k, lone, r.from, x) {
                return AT_F1;
            }
            NO_RULE
        }
        Look::Node(_, more, _) => rank_term_node(k, table, v, x, lone, more),
    }
}
