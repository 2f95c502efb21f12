// Whether the rule of one place in the list applies at a literal: the search asks for the first that does, and this for one that is named.
#![tactic(auto)]

ghost use Rattle.std.specs.Prelude.{◌<◌, ◌≡◌, ◌++◌, length};
ghost use Rattle.language.specs.Kinds.{pick};
ghost use Rattle.language.specs.Trees.{Hedge, Expr, Literal, eqn, Conj};
ghost use Rattle.rules.specs.Ranks.{eqn_answer, mem_answer};
ghost use Rattle.rules.specs.Solved.{is_some};
ghost use Rattle.views.specs.Standing.{LiteralAt, SomeLiteral};
ghost use Rattle.views.specs.Views.{Sees, Shows};
ghost use Rattle.counts.specs.Tables.{afresh};
ghost use Rattle.applies.specs.Answers.{answers_at};

mod counted;
mod equation;
mod looks;
mod membership;

use bools::and;
use counts::TABLE;
use equation::{d0, d1, d2, del1, del2, del3, e1, e2, e3, e4, e5, e6, e7, f1, f2, f3, f4, r1};
use language::Signature;
use membership::{f5, f6, f7, m1, m2, m3, m7, m10, m11, m12, r2, single_in};
use rules::places::{
    AT_D0, AT_D1, AT_D2, AT_DEL1, AT_DEL2, AT_DEL3, AT_E1, AT_E2, AT_E3, AT_E4, AT_E5, AT_E6,
    AT_E7, AT_F1, AT_F2, AT_F3, AT_F4, AT_F5, AT_F6, AT_F7, AT_M1, AT_M2, AT_M3, AT_M4, AT_M5,
    AT_M6, AT_M7, AT_M10, AT_M11, AT_M12, AT_R1, AT_R2,
};
use views::{Shape, View, see, show_membership, swapped};

// The rule of that place applies to the equation, seen from its left side.
fn equation_applies(
    rank: usize,
    k: &[u16],
    table: &[u16; TABLE],
    v: View,
    signature: Signature,
) -> bool
    requires { table.now ≡ afresh k.now }
    ensures { (before behind : Conj) (l r : Hedge) → Sees k.now v before l r behind → result ≡ is_some (eqn_answer signature rank (before ++ behind) l r) }
{
    match rank {
        AT_R1 => r1(k, v),
        AT_F1 => f1(k, v),
        AT_F2 => f2(k, v),
        AT_F3 => f3(k, v),
        AT_F4 => f4(k, v),
        AT_DEL1 => del1(k, v),
        AT_DEL2 => del2(k, v, signature),
        AT_DEL3 => del3(k, v),
        AT_D1 => d1(k, v, signature),
        AT_D2 => d2(k, v),
        AT_D0 => d0(k, v, signature),
        AT_E1 => e1(k, table, v),
        AT_E2 => e2(k, table, v),
        AT_E3 => e3(k, v),
        AT_E4 => e4(k, v),
        AT_E5 => e5(k, table, v),
        AT_E6 => e6(k, v),
        AT_E7 => e7(k, v, signature),
        _ => false,
    }
}

// The rule of that place applies to the membership.
fn membership_applies(rank: usize, k: &[u16], s: Shape, signature: Signature) -> bool
    ensures { (before : Conj) (h : Hedge) (R : Expr) (behind : Conj) → Shows k.now s before h R behind → result ≡ is_some (mem_answer signature rank (before ++ behind) h R) }
{
    match rank {
        AT_R2 => r2(k, s),
        AT_F5 => f5(k, s),
        AT_F6 => f6(k, s),
        AT_F7 => f7(k, s),
        AT_M1 => m1(k, s),
        AT_M2 => m2(k, s),
        AT_M3 => m3(k, s),
        AT_M4 => single_in(k, s, 7003),
        AT_M5 => single_in(k, s, 7001),
        AT_M6 => single_in(k, s, 7002),
        AT_M7 => m7(k, s),
        AT_M10 => m10(k, s),
        AT_M11 => m11(k, s, signature),
        AT_M12 => m12(k, s, signature),
        _ => false,
    }
}

// The equation at a place, seen from that side.
fn seen(k: &[u16], at: usize, swap: bool) -> View
    requires { at < length k.now }
    ensures { (before : Conj) (l r : Hedge) (behind : Conj) → LiteralAt k.now at before (eqn l r) behind → Sees k.now result before (pick swap r l) (pick swap l r) behind }
{
    let v = see(k, at);
    if swap {
        return swapped(v);
    }
    v
}

// The rule of that place applies to the literal that stands at `at`, seen from that side, the table having the counts of all variables. A membership
// has no other side.
pub fn literal_applies(
    rank: usize,
    k: &[u16],
    table: &[u16; TABLE],
    at: usize,
    swap: bool,
    signature: Signature,
) -> bool
    requires at_in_bounds { at < length k.now }
    requires some_literal { SomeLiteral k.now at }
    requires table_value { table.now ≡ afresh k.now }
    ensures { (before : Conj) (l : Literal) (behind : Conj) → LiteralAt k.now at before l behind → result ≡ answers_at signature rank swap (before ++ behind) l }
{
    if k[at] == 5000 {
        return equation_applies(rank, k, table, seen(k, at, swap), signature);
    }
    let m = show_membership(k, at);
    let there = membership_applies(rank, k, m, signature);
    and(!swap, there)
}
