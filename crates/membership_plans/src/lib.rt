// What each rule of memberships makes of the words: its results, described by parts of them.
#![tactic(auto)]

ghost use Rattle.std.specs.Prelude.{◌≡◌};
ghost use Rattle.language.specs.declared.Signature.{Signature};
ghost use Rattle.rules.specs.Rules.{M5, M6, M7, M12};
ghost use Rattle.membership_plans.specs.Recipes.{r2_plan, m1_plan, m3_first, m3_second, m3_plan, member_in, m4_plan, m11_plan, reordered, m12_plan, m5_first, m5_second, shared, halved, m10_plan, expr_inner, mid_of};
ghost use Rattle.membership_plans.specs.Planned.{Is, Answered, RuleApplies};

use finds::all_terms;
use plans::{Piece, Plan, Recipe, Ways, Within, inner};
use recipes::{few, full, plan_drop, single};
use rules::places::{AT_M1, AT_M3, AT_M4, AT_M5, AT_M6, AT_M7, AT_M10, AT_M11, AT_M12, AT_R2};
use views::Shape;

// One membership: the hedge from..to in the expression start..end.
fn member_in(s: Shape, from: usize, to: usize, start: usize, end: usize) -> Recipe
    ensures { result ≡ member_in s from to start end }
{
    few(
        Piece::Copy(0, s.at),
        Piece::Word(6000),
        Piece::Copy(from, to),
        Piece::Copy(start, end),
        Piece::Copy(s.end, s.len),
        0,
        0,
        0,
    )
}

// The literal is removed.
fn plan_r2(s: Shape) -> Plan
    ensures { result ≡ r2_plan s }
{
    let none = Piece::Copy(0, 0);
    let first = few(
        Piece::Copy(0, s.at),
        Piece::Copy(s.end, s.len),
        none,
        none,
        none,
        0,
        0,
        0,
    );
    single(Ways::One(0), first)
}

// p = ε for each place of a hedge variable, which vanishes everywhere else.
fn plan_m1(k: &[u16], s: Shape) -> Plan
    ensures { result ≡ m1_plan k.now s }
{
    let h = s.h;
    let part = inner(k, h.from, h.to);
    let none = Piece::Copy(0, 0);
    let first = few(
        Piece::Put(0, s.at),
        Piece::Each(h.from, part.to),
        Piece::Put(s.end, s.len),
        none,
        none,
        h.from,
        part.to,
        0,
    );
    single(Ways::One(0), first)
}

// p in f(R), H = ε.
fn first_in(s: Shape) -> Recipe
    ensures { result ≡ m3_first s }
{
    let h = s.h;
    let none = Piece::Copy(0, 0);
    full(
        Piece::Copy(0, s.at),
        Piece::Word(6000),
        Piece::Copy(h.from, h.rest),
        Piece::Word(0),
        Piece::Copy(s.expr, s.end),
        Piece::Word(5000),
        Piece::Copy(h.rest, h.to),
        Piece::Word(0),
        Piece::Copy(s.end, s.len),
        none,
        none,
        none,
        0,
        0,
        0,
    )
}

// p = ε, H in f(R).
fn rest_in(s: Shape) -> Recipe
    ensures { result ≡ m3_second s }
{
    let h = s.h;
    let none = Piece::Copy(0, 0);
    full(
        Piece::Copy(0, s.at),
        Piece::Word(5000),
        Piece::Copy(h.from, h.rest),
        Piece::Word(0),
        Piece::Word(0),
        Piece::Word(6000),
        Piece::Copy(h.rest, h.to),
        Piece::Copy(s.expr, s.end),
        Piece::Copy(s.end, s.len),
        none,
        none,
        none,
        0,
        0,
        0,
    )
}

// p in f(R), H = ε; or p = ε, H in f(R).
fn plan_m3(s: Shape) -> Plan
    ensures { result ≡ m3_plan s }
{
    let first = first_in(s);
    let second = rest_in(s);
    Plan {
        ways: Ways::Two,
        first,
        second,
    }
}

// t in R.
fn plan_m4(k: &[u16], s: Shape) -> Plan
    ensures { result ≡ m4_plan k.now s }
{
    let h = s.h;
    let part = inner(k, s.expr, s.end);
    let first = member_in(s, h.from, h.to, part.from, s.end);
    single(Ways::One(0), first)
}

// H in R.
fn plan_m11(k: &[u16], s: Shape) -> Plan
    ensures { result ≡ m11_plan k.now s }
{
    let h = s.h;
    let children = inner(k, h.from, h.to);
    let part = inner(k, s.expr, s.end);
    let first = member_in(s, children.from, children.to, part.from, s.end);
    single(Ways::One(0), first)
}

// T' in R for each order T' of the n elements of T.
fn reorder(s: Shape, children: Within, part: Within, n: usize) -> Plan
    ensures { result ≡ reordered s children part n }
{
    let none = Piece::Copy(0, 0);
    let first = full(
        Piece::Copy(0, s.at),
        Piece::Word(6000),
        Piece::Ordered(children.from, n),
        Piece::Word(0),
        Piece::Copy(part.from, s.end),
        Piece::Copy(s.end, s.len),
        none,
        none,
        none,
        none,
        none,
        none,
        0,
        0,
        0,
    );
    single(Ways::Orders(n), first)
}

// The terms of T are counted.
fn plan_m12(k: &[u16], s: Shape) -> Plan
    ensures { (σ : Signature) → Is (M12 σ) k.now s (λ h R. m12_plan k.now s h) result }
{
    let h = s.h;
    let children = inner(k, h.from, h.to);
    let part = inner(k, s.expr, s.end);
    let terms = all_terms(k, children.from);
    reorder(s, children, part, terms.count)
}

// t in R1, ε in R2.
fn in_first(s: Shape, start: usize, mid: usize) -> Recipe
    ensures { result ≡ m5_first s start mid }
{
    let h = s.h;
    let none = Piece::Copy(0, 0);
    full(
        Piece::Copy(0, s.at),
        Piece::Word(6000),
        Piece::Copy(h.from, h.to),
        Piece::Copy(start, mid),
        Piece::Word(6000),
        Piece::Word(0),
        Piece::Copy(mid, s.end),
        Piece::Copy(s.end, s.len),
        none,
        none,
        none,
        none,
        0,
        0,
        0,
    )
}

// ε in R1, t in R2.
fn in_second(s: Shape, start: usize, mid: usize) -> Recipe
    ensures { result ≡ m5_second s start mid }
{
    let h = s.h;
    let none = Piece::Copy(0, 0);
    full(
        Piece::Copy(0, s.at),
        Piece::Word(6000),
        Piece::Word(0),
        Piece::Copy(start, mid),
        Piece::Word(6000),
        Piece::Copy(h.from, h.to),
        Piece::Copy(mid, s.end),
        Piece::Copy(s.end, s.len),
        none,
        none,
        none,
        none,
        0,
        0,
        0,
    )
}

// t in R1, ε in R2; or ε in R1, t in R2.
fn plan_m5(k: &[u16], s: Shape) -> Plan
    ensures { Is M5 k.now s (λ h R. shared s (expr_inner k.now s).from (mid_of k.now s R)) result }
{
    let within = inner(k, s.expr, s.end);
    let part = expressions::pass(k, within.from);
    let first = in_first(s, within.from, part.end);
    let second = in_second(s, within.from, part.end);
    Plan {
        ways: Ways::Two,
        first,
        second,
    }
}

// The hedge in R1; or in R2.
fn halves(k: &[u16], s: Shape) -> Plan
    ensures { Is M6 k.now s (λ h R. halved s (expr_inner k.now s).from (mid_of k.now s R)) result × Is M7 k.now s (λ h R. halved s (expr_inner k.now s).from (mid_of k.now s R)) result }
{
    let h = s.h;
    let within = inner(k, s.expr, s.end);
    let part = expressions::pass(k, within.from);
    let first = member_in(s, h.from, h.to, within.from, part.end);
    let second = member_in(s, h.from, h.to, part.end, s.end);
    Plan {
        ways: Ways::Two,
        first,
        second,
    }
}

// X() = f(), f(H) in f(R).
fn plan_m10(k: &[u16], s: Shape) -> Plan
    ensures { result ≡ m10_plan k.now s }
{
    let h = s.h;
    let left = inner(k, h.from, h.to);
    let right = inner(k, s.expr, s.end);
    let first = full(
        Piece::Put(0, s.at),
        Piece::Word(5000),
        Piece::Copy(h.from, left.from),
        Piece::Word(0),
        Piece::Word(0),
        Piece::Copy(s.expr, right.from),
        Piece::Word(0),
        Piece::Word(0),
        Piece::Word(6000),
        Piece::Put(h.from, h.to),
        Piece::Copy(s.expr, s.end),
        Piece::Put(s.end, s.len),
        h.from,
        left.from,
        s.expr,
    );
    single(Ways::One(right.from), first)
}

// The results of the rule of that place in the list, which applies; M2's are made by monomials, and have no plan.
pub fn plan_membership(rank: usize, k: &[u16], s: Shape) -> Plan
    requires { RuleApplies rank k.now s }
    ensures { Answered rank k.now s result }
{
    match rank {
        AT_R2 => plan_r2(s),
        AT_M1 => plan_m1(k, s),
        AT_M3 => plan_m3(s),
        AT_M4 => plan_m4(k, s),
        AT_M5 => plan_m5(k, s),
        AT_M6 => halves(k, s),
        AT_M7 => halves(k, s),
        AT_M10 => plan_m10(k, s),
        AT_M11 => plan_m11(k, s),
        AT_M12 => plan_m12(k, s),
        _ => plan_drop(),
    }
}
