// What the rules of equations make of the words that eliminate a variable, or look along a side for one; and those that leave nothing.
#![tactic(auto)]

ghost use Rattle.std.specs.Prelude.{◌+◌, ◌≡◌};
ghost use Rattle.rules.specs.Rules.{E3, E4, Del3};
ghost use Rattle.equation_recipes.specs.Recipes.{eliminated, e1_plan, e5_plan, e6_plan, e7_plan, cut_plan, e3_plan, e4_plan, del3_plan, spot_of};
ghost use Rattle.equation_recipes.specs.Planned.{Is, Planning, RuleApplies, Further};

use finds::{all_terms, up_to};
use language::Signature;
use plans::{Piece, Plan, Ways, inner};
use recipes::{few, full, plan_drop, single};
use rules::places::{AT_DEL3, AT_E1, AT_E2, AT_E3, AT_E4, AT_E5, AT_E6, AT_E7};
use spots::inside;
use views::{Look, View};

// The equation stays, and in all others the left side's words before `until` become the right side's before the cut.
fn eliminate(v: View, until: usize, cut: usize) -> Plan
    ensures { result ≡ eliminated v until cut }
{
    let l = v.l;
    let r = v.r;
    let first = few(
        Piece::Put(0, v.at),
        Piece::Word(5000),
        Piece::Copy(l.from, l.to),
        Piece::Copy(r.from, r.to),
        Piece::Put(v.end, v.len),
        l.from,
        until,
        r.from,
    );
    single(Ways::One(cut), first)
}

// t stands for x, or H for p.
fn plan_e1(k: &[u16], v: View) -> Plan
    ensures { result ≡ e1_plan k.now v }
{
    let l = v.l;
    let r = v.r;
    let right = inner(k, r.from, r.to);
    eliminate(v, l.rest, right.to)
}

// F stands for X.
fn plan_e5(k: &[u16], v: View) -> Plan
    ensures { result ≡ e5_plan k.now v }
{
    let l = v.l;
    let r = v.r;
    let left = inner(k, l.from, l.to);
    let right = inner(k, r.from, r.to);
    eliminate(v, left.from, right.from)
}

// X() = F(), F(H1) = F(H2), and F stands for X in all others.
fn plan_e6(k: &[u16], v: View) -> Plan
    ensures { result ≡ e6_plan k.now v }
{
    let l = v.l;
    let r = v.r;
    let left = inner(k, l.from, l.to);
    let right = inner(k, r.from, r.to);
    let first = full(
        Piece::Put(0, v.at),
        Piece::Word(5000),
        Piece::Copy(l.from, left.from),
        Piece::Word(0),
        Piece::Word(0),
        Piece::Copy(r.from, right.from),
        Piece::Word(0),
        Piece::Word(0),
        Piece::Word(5000),
        Piece::Put(l.from, l.to),
        Piece::Put(r.from, r.to),
        Piece::Put(v.end, v.len),
        l.from,
        left.from,
        r.from,
    );
    single(Ways::One(right.from), first)
}

// X() = f(), f(H1) = f(H2) for each symbol f, which stands for X in all others.
fn plan_e7(k: &[u16], v: View, symbols: u16) -> Plan
    ensures { result ≡ e7_plan k.now v symbols }
{
    let l = v.l;
    let r = v.r;
    let left = inner(k, l.from, l.to);
    let first = full(
        Piece::Named(0, v.at),
        Piece::Word(5000),
        Piece::Copy(l.from, left.from),
        Piece::Word(0),
        Piece::Word(0),
        Piece::Named(l.from, left.from),
        Piece::Word(0),
        Piece::Word(0),
        Piece::Word(5000),
        Piece::Named(l.from, l.to),
        Piece::Named(r.from, r.to),
        Piece::Named(v.end, v.len),
        l.from,
        left.from,
        0,
    );
    single(Ways::Names(symbols), first)
}

// p = T1, H = (T2,..) for each of so many cuts, and T1 stands for p in all others.
fn cut_by(v: View, cuts: usize) -> Plan
    ensures { result ≡ cut_plan v cuts }
{
    let l = v.l;
    let r = v.r;
    let none = Piece::Copy(0, 0);
    let first = full(
        Piece::Put(0, v.at),
        Piece::Word(5000),
        Piece::Copy(l.from, l.rest),
        Piece::Word(0),
        Piece::ToCut(r.from),
        Piece::Word(0),
        Piece::Word(5000),
        Piece::Put(l.rest, l.to),
        Piece::PutFromCut(r.to),
        Piece::Put(v.end, v.len),
        none,
        none,
        l.from,
        l.rest,
        r.from,
    );
    single(Ways::Cuts(r.from, cuts), first)
}

// A cut behind each term of T, and one before them.
fn plan_e3(k: &[u16], v: View) -> Plan
    ensures { Is E3 k.now v (λ l r. e3_plan v r) result }
{
    let r = v.r;
    let terms = all_terms(k, r.from);
    let cuts = terms.count + 1;
    cut_by(v, cuts)
}

// A cut behind each term of T up to the one that holds p, and one before them.
fn plan_e4(k: &[u16], v: View) -> Plan
    ensures { Is E4 k.now v (e4_plan v) result }
{
    let r = v.r;
    let Look::Run(p, _) = v.l.look else {
        return plan_drop();
    };
    let Some(n) = up_to(k, r.from, p) else {
        return plan_drop();
    };
    cut_by(v, n + 1)
}

// The hedge variable at the place i is struck, and what stands around it is empty.
fn strike(k: &[u16], v: View, i: usize) -> Plan
    ensures { result ≡ del3_plan k.now v i }
{
    let r = v.r;
    let behind = inner(k, i, r.to);
    let none = Piece::Copy(0, 0);
    let first = full(
        Piece::Copy(0, v.at),
        Piece::Word(5000),
        Piece::Copy(r.from, i),
        Piece::Word(0),
        Piece::Word(0),
        Piece::Word(5000),
        Piece::Copy(behind.from, r.to),
        Piece::Word(0),
        Piece::Copy(v.end, v.len),
        none,
        none,
        none,
        0,
        0,
        0,
    );
    single(Ways::One(0), first)
}

// H1 = ε, H2 = ε.
fn plan_del3(k: &[u16], v: View) -> Plan
    ensures { Is Del3 k.now v (λ l r. del3_plan k.now v (spot_of v l r)) result }
{
    let r = v.r;
    let Look::Run(p, _) = v.l.look else {
        return plan_drop();
    };
    let Some(i) = inside(k, r.from, p) else {
        return plan_drop();
    };
    strike(k, v, i)
}

// The results of the rule of that place in the list, which applies and is none of those that move parts.
pub fn plan_elimination(sigma: Signature, rank: usize, k: &[u16], v: View) -> Plan
    requires rule_applies { RuleApplies sigma rank k.now v }
    requires further { Further rank }
    ensures { Planning sigma rank k.now v result }
{
    match rank {
        AT_DEL3 => plan_del3(k, v),
        AT_E1 => plan_e1(k, v),
        AT_E2 => plan_e1(k, v),
        AT_E3 => plan_e3(k, v),
        AT_E4 => plan_e4(k, v),
        AT_E5 => plan_e5(k, v),
        AT_E6 => plan_e6(k, v),
        AT_E7 => plan_e7(k, v, sigma.symbols),
        _ => plan_drop(),
    }
}
