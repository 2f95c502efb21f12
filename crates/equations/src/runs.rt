// The first rule at an equation whose left side begins with a hedge variable.
ghost use Rattle.std.specs.Prelude.{ℕ, ◌<◌, ◌≡◌, true, false, not, ◌&&◌, List, ◌++◌};
ghost use Rattle.language.specs.Limits.{desk};
ghost use Rattle.language.specs.declared.HedgeVar.{HedgeVar};
ghost use Rattle.language.specs.Trees.{Hedge, hvar, Conj, hv, holds};
ghost use Rattle.rules.specs.Looks.{empty, all_terms, lone_h};
ghost use Rattle.rules.specs.Rules.{too};
ghost use Rattle.views.specs.Views.{Sees};
ghost use Rattle.counts.specs.Tables.{Beside};
ghost use Rattle.equations.specs.Rank.{lonely, leading};
ghost use Rattle.equations.specs.Ranked.{Ranks, Begins};

use counts::{TABLE, repeated};
use finds::{all_terms, up_to};
use language::{HedgeVar, run_word};
use rules::places::{AT_DEL1, AT_DEL3, AT_E2, AT_E3, AT_E4, AT_F2, AT_R1, NO_RULE};
use spots::{has_term, inside};
use views::{Look, Side, View};
use words::{same_part, stands};

// Where the right side is one hedge variable, it is in the others too.
fn too_elsewhere(k: &[u16], table: &[u16; TABLE], v: View) -> bool
    ensures { (before behind : Conj) (l r : Hedge) → Sees k.now v before l r behind → Beside table.now (before ++ behind) l r → ((q : HedgeVar) (t : Hedge) → r ≡ hvar q t → empty t ≡ true → holds (hv q) l ≡ false) → result ≡ too hv (lone_h r) (before ++ behind) }
{
    let r = v.r;
    let look = r.look;
    match look {
        Look::Empty => true,
        Look::Term(_, _) => true,
        Look::Run(q, lone) => {
            if lone {
                return repeated(table, run_word(q));
            }
            true
        }
        Look::Node(_, _, _) => true,
    }
}

// A lone p against a hedge that does not begin with it: F2, Del3, E2.
fn rank_lonely(k: &[u16], table: &[u16; TABLE], v: View, p: HedgeVar) -> usize
    ensures { (before behind : Conj) (s r : Hedge) → Sees k.now v before (hvar p s) r behind → Beside table.now (before ++ behind) (hvar p s) r → empty s ≡ true → result ≡ lonely (before ++ behind) p r }
{
    let r = v.r;
    let x = run_word(p);
    if stands(k, r.from, r.to, x) {
        if has_term(k, r.from) {
            return AT_F2;
        }
        if inside(k, r.from, p).is_some() {
            return AT_DEL3;
        }
        return NO_RULE;
    }
    if repeated(table, x) {
        if too_elsewhere(k, table, v) {
            return AT_E2;
        }
        return NO_RULE;
    }
    NO_RULE
}

// Whether terms alone stand there, and p in none of them.
fn free_terms(k: &[u16], v: View, p: HedgeVar) -> bool
    ensures { (before behind : Conj) (l r : Hedge) → Sees k.now v before l r behind → p.0 < desk.each → result ≡ (all_terms r && not (holds (hv p) r)) }
{
    let r = v.r;
    let terms = all_terms(k, r.from);
    if terms.all {
        if stands(k, r.from, r.to, run_word(p)) {
            return false;
        }
        return true;
    }
    false
}

// p with something behind it against a hedge that begins with a term: E3, E4.
fn rank_leading(k: &[u16], v: View, p: HedgeVar) -> usize
    ensures { (before behind : Conj) (s r : Hedge) → Sees k.now v before (hvar p s) r behind → result ≡ leading p r }
{
    if free_terms(k, v, p) {
        return AT_E3;
    }
    let r = v.r;
    if up_to(k, r.from, p).is_some() {
        return AT_E4;
    }
    NO_RULE
}

// The same hedge variable in front: R1, F2, Del1.
fn rank_struck(k: &[u16], v: View, lone: bool) -> usize
    ensures { (q : HedgeVar) (s t : Hedge) (table : List ℕ) → lone ≡ empty s → Ranks k.now table v (hvar q s) (hvar q t) result }
{
    let l = v.l;
    let r = v.r;
    if same_part(k, l.from, l.to, r.from, r.to) {
        return AT_R1;
    }
    if lone {
        if has_term(k, r.from) {
            return AT_F2;
        }
        return AT_DEL1;
    }
    AT_DEL1
}

// p against another hedge variable.
fn rank_run_run(
    k: &[u16],
    table: &[u16; TABLE],
    v: View,
    p: HedgeVar,
    lone: bool,
    z: HedgeVar,
) -> usize
    ensures { (s t : Hedge) → lone ≡ empty s → Ranks k.now table.now v (hvar p s) (hvar z t) result }
{
    if p.0 == z.0 {
        return rank_struck(k, v, lone);
    }
    if lone {
        return rank_lonely(k, table, v, p);
    }
    NO_RULE
}

// p against a hedge that begins with a term.
fn rank_run_term(k: &[u16], table: &[u16; TABLE], v: View, p: HedgeVar, lone: bool) -> usize
    ensures { (s r : Hedge) → lone ≡ empty s → Begins r → Ranks k.now table.now v (hvar p s) r result }
{
    if lone {
        return rank_lonely(k, table, v, p);
    }
    rank_leading(k, v, p)
}

// The left side begins with a hedge variable.
pub fn rank_run(k: &[u16], table: &[u16; TABLE], v: View, p: HedgeVar, lone: bool) -> usize
    ensures { (s r : Hedge) → lone ≡ empty s → Ranks k.now table.now v (hvar p s) r result }
{
    let r = v.r;
    let look = r.look;
    match look {
        Look::Empty => {
            if lone {
                if repeated(table, run_word(p)) {
                    return AT_E2;
                }
                return NO_RULE;
            }
            AT_E3
        }
        Look::Term(_, _) => rank_run_term(k, table, v, p, lone),
        Look::Run(z, _) => rank_run_run(k, table, v, p, lone, z),
        Look::Node(_, _, _) => rank_run_term(k, table, v, p, lone),
    }
}
