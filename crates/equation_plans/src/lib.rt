// What each rule of equations makes of the words: its results, described by parts of them. Rules that move parts stand here, the others in
// `elimination_plans`.
#![tactic(auto)]

ghost use Rattle.std.specs.Prelude.{◌≡◌};
ghost use Rattle.language.specs.declared.Signature.{Signature};
ghost use Rattle.rules.specs.Rules.{D1};
ghost use Rattle.equation_recipes.specs.Recipes.{r1_plan, equated, del1_plan, struck_out, del2_plan, d0_plan, reordered, d1_plan, d2_plan};
ghost use Rattle.equation_recipes.specs.Planned.{Is, Planning, RuleApplies};

use elimination_plans::plan_elimination;
use finds::all_terms;
use language::Signature;
use plans::{Piece, Plan, Ways, Within, inner};
use recipes::{few, full, plan_drop, single};
use rules::places::{AT_D0, AT_D1, AT_D2, AT_DEL1, AT_DEL2, AT_R1};
use sharing::{Spots, first_shared};
use views::View;

// The literal is removed.
fn plan_r1(v: View) -> Plan
    ensures { result ≡ r1_plan v }
{
    let none = Piece::Copy(0, 0);
    let first = few(
        Piece::Copy(0, v.at),
        Piece::Copy(v.end, v.len),
        none,
        none,
        none,
        0,
        0,
        0,
    );
    single(Ways::One(0), first)
}

// The parts from..to and start..end are equal.
fn equate(v: View, from: usize, to: usize, start: usize, end: usize) -> Plan
    ensures { result ≡ equated v from to start end }
{
    let first = few(
        Piece::Copy(0, v.at),
        Piece::Word(5000),
        Piece::Copy(from, to),
        Piece::Copy(start, end),
        Piece::Copy(v.end, v.len),
        0,
        0,
        0,
    );
    single(Ways::One(0), first)
}

// The hedge variable is struck from both sides.
fn plan_del1(v: View) -> Plan
    ensures { result ≡ del1_plan v }
{
    let l = v.l;
    let r = v.r;
    equate(v, l.rest, l.to, r.rest, r.to)
}

// Children are equal.
fn plan_d0(k: &[u16], v: View) -> Plan
    ensures { result ≡ d0_plan k.now v }
{
    let l = v.l;
    let r = v.r;
    let left = inner(k, l.from, l.to);
    let right = inner(k, r.from, r.to);
    equate(v, left.from, left.to, right.from, right.to)
}

// The element that stands at those places is struck from both sides.
fn strike_out(v: View, s: Spots) -> Plan
    ensures { result ≡ struck_out v s }
{
    let l = v.l;
    let r = v.r;
    let none = Piece::Copy(0, 0);
    let first = full(
        Piece::Copy(0, v.at),
        Piece::Word(5000),
        Piece::Copy(l.from, s.left),
        Piece::Copy(s.after, l.to),
        Piece::Copy(r.from, s.right),
        Piece::Copy(s.behind, r.to),
        Piece::Copy(v.end, v.len),
        none,
        none,
        none,
        none,
        none,
        0,
        0,
        0,
    );
    single(Ways::One(0), first)
}

// Where no element is shared; the rule is asked only where one is.
const NOWHERE: Spots = Spots {
    left: 0,
    after: 0,
    right: 0,
    behind: 0,
};

// The first element that the children share is struck.
fn plan_del2(k: &[u16], v: View) -> Plan
    ensures { result ≡ del2_plan k.now v }
{
    let l = v.l;
    let r = v.r;
    let left = inner(k, l.from, l.to);
    let right = inner(k, r.from, r.to);
    let spots = first_shared(k, left.from, right.from).unwrap_or(NOWHERE);
    strike_out(v, spots)
}

// H = T' for each order T' of the n elements of T.
fn reorder(v: View, left: Within, right: Within, n: usize) -> Plan
    ensures { result ≡ reordered v left right n }
{
    let none = Piece::Copy(0, 0);
    let first = full(
        Piece::Copy(0, v.at),
        Piece::Word(5000),
        Piece::Copy(left.from, left.to),
        Piece::Ordered(right.from, n),
        Piece::Word(0),
        Piece::Copy(v.end, v.len),
        none,
        none,
        none,
        none,
        none,
        none,
        0,
        0,
        0,
    );
    single(Ways::Orders(n), first)
}

// The terms of T are counted.
fn plan_d1(k: &[u16], v: View) -> Plan
    ensures { (σ : Signature) → Is (D1 σ) k.now v (λ l r. d1_plan k.now v r) result }
{
    let l = v.l;
    let r = v.r;
    let left = inner(k, l.from, l.to);
    let right = inner(k, r.from, r.to);
    let terms = all_terms(k, right.from);
    reorder(v, left, right, terms.count)
}

// t1 = t2, H1 = H2.
fn plan_d2(v: View) -> Plan
    ensures { result ≡ d2_plan v }
{
    let l = v.l;
    let r = v.r;
    let none = Piece::Copy(0, 0);
    let first = full(
        Piece::Copy(0, v.at),
        Piece::Word(5000),
        Piece::Copy(l.from, l.rest),
        Piece::Word(0),
        Piece::Copy(r.from, r.rest),
        Piece::Word(0),
        Piece::Word(5000),
        Piece::Copy(l.rest, l.to),
        Piece::Copy(r.rest, r.to),
        Piece::Copy(v.end, v.len),
        none,
        none,
        0,
        0,
        0,
    );
    single(Ways::One(0), first)
}

// The results of the rule of that place in the list, which applies.
pub fn plan_equation(sigma: Signature, rank: usize, k: &[u16], v: View) -> Plan
    requires { RuleApplies sigma rank k.now v }
    ensures { Planning sigma rank k.now v result }
{
    match rank {
        AT_R1 => plan_r1(v),
        AT_DEL1 => plan_del1(v),
        AT_DEL2 => plan_del2(k, v),
        AT_D1 => plan_d1(k, v),
        AT_D2 => plan_d2(v),
        AT_D0 => plan_d0(k, v),
        _ => plan_elimination(sigma, rank, k, v),
    }
}
