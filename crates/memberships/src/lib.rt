// The first rule at a membership.
#![tactic(auto)]

ghost use Rattle.std.specs.Prelude.{ℕ, ◌≡◌, List, ◌++◌};
ghost use Rattle.language.specs.Kinds.{pick};
ghost use Rattle.language.specs.Trees.{Functor, Hedge, node, Expr, Conj};
ghost use Rattle.rules.specs.Looks.{has_term, all_terms};
ghost use Rattle.rules.specs.Expressions.{nullable};
ghost use Rattle.views.specs.Looks.{look_of};
ghost use Rattle.views.specs.Views.{Shows, MembershipAt};
ghost use Rattle.rules.specs.Ranks.{mem_rank};
ghost use Rattle.views.specs.Standing.{Stands};
ghost use Rattle.expressions.specs.Standing.{Here};
ghost use Rattle.rules.specs.Places.{at_r2, at_f6, at_m2, at_m12, no_rule};
ghost use Rattle.memberships.specs.Rank.{child_terms, over_by, single_by, term_by, run_by};

use language::{Kind, Name, Signature, Sym, is_unordered};
use plans::inner;
use rules::places::{
    AT_F5, AT_F6, AT_F7, AT_M1, AT_M2, AT_M3, AT_M4, AT_M5, AT_M6, AT_M7, AT_M10, AT_M11, AT_M12,
    AT_R2, NO_RULE,
};
use views::{Look, Shape};

// ε in the expression at a place: R2, F6.
fn rank_empty(k: &[u16], at: usize) -> usize
    ensures { (R : Expr) (beyond : List ℕ) → Here k.now at R beyond → result ≡ pick (nullable R) at_r2 at_f6 }
{
    let p = expressions::pass(k, at);
    let null = p.null;
    if null { AT_R2 } else { AT_F6 }
}

// A single term with an unordered symbol, in that symbol over an expression: M12.
fn rank_shuffled(k: &[u16], from: usize) -> usize
    ensures { (F : Functor) (c r : Hedge) (beyond : List ℕ) → Stands k.now from (node F c r) beyond → result ≡ pick (all_terms c) at_m12 no_rule }
{
    let c = inner(k, from, from);
    let terms = finds::all_terms(k, c.from);
    if terms.all { AT_M12 } else { NO_RULE }
}

// A single F(H), which stands at `from`, in g(R): M10, M11, M12, F5.
fn rank_over(k: &[u16], from: usize, signature: Signature, f: Name, g: Sym) -> usize
    ensures { (F : Functor) (c r : Hedge) (beyond : List ℕ) → Stands k.now from (node F c r) beyond → result ≡ over_by signature (all_terms c) f g }
{
    match f {
        Name::Symbol(a) => {
            if a.0 == g.0 {
                if is_unordered(signature, a) {
                    return rank_shuffled(k, from);
                }
                return AT_M11;
            }
            AT_F5
        }
        Name::Blank(_) => AT_M10,
    }
}

// A single term in g(R): as above, and no rule for a variable.
fn rank_single(k: &[u16], from: usize, signature: Signature, look: Look, g: Sym) -> usize
    ensures { (h : Hedge) (beyond : List ℕ) → Stands k.now from h beyond → look ≡ look_of h → result ≡ single_by signature (child_terms h) look g }
{
    match look {
        Look::Empty => NO_RULE,
        Look::Term(_, _) => NO_RULE,
        Look::Run(_, _) => NO_RULE,
        Look::Node(f, _, _) => rank_over(k, from, signature, f, g),
    }
}

// The rule for a single term, or M2 where more follows.
fn or_more(last: bool, single: usize) -> usize
    ensures { result ≡ pick last single at_m2 }
{
    if last { single } else { AT_M2 }
}

// A hedge that begins with a term, in an expression that begins with `first`: F7, M2, M4, M5, M6, or as a single term.
fn rank_term(
    k: &[u16],
    from: usize,
    signature: Signature,
    look: Look,
    last: bool,
    first: Kind,
) -> usize
    ensures { (h : Hedge) (beyond : List ℕ) → Stands k.now from h beyond → look ≡ look_of h → result ≡ term_by signature (child_terms h) look last first }
{
    match first {
        Kind::Eps => AT_F7,
        Kind::Cat => or_more(last, AT_M5),
        Kind::Alt => or_more(last, AT_M6),
        Kind::Star => or_more(last, AT_M4),
        Kind::Symbol(g) => or_more(last, rank_single(k, from, signature, look, g)),
        _ => NO_RULE,
    }
}

// A hedge that begins with a hedge variable, in an expression that begins with `first`: F7, M1, M3, M7.
fn rank_run(k: &[u16], from: usize, first: Kind, last: bool) -> usize
    ensures { (h : Hedge) (beyond : List ℕ) → Stands k.now from h beyond → result ≡ run_by first last (has_term h) }
{
    match first {
        Kind::Eps => {
            if spots::has_term(k, from) {
                return AT_F7;
            }
            AT_M1
        }
        Kind::Alt => AT_M7,
        Kind::Symbol(_) => {
            if last {
                return NO_RULE;
            }
            AT_M3
        }
        _ => NO_RULE,
    }
}

// The place of the first rule in the list, or NO_RULE where none applies.
pub fn rank_membership(k: &[u16], s: Shape, signature: Signature) -> usize
    requires { MembershipAt k.now s }
    ensures { (before : Conj) (h : Hedge) (R : Expr) (behind : Conj) → Shows k.now s before h R behind → result ≡ mem_rank signature (before ++ behind) h R }
{
    let h = s.h;
    let look = h.look;
    let first = s.first;
    match look {
        Look::Empty => rank_empty(k, s.expr),
        Look::Term(_, last) => rank_term(k, h.from, signature, look, last, first),
        Look::Run(_, last) => rank_run(k, h.from, first, last),
        Look::Node(_, last, _) => rank_term(k, h.from, signature, look, last, first),
    }
}
