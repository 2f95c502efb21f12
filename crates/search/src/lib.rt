// The search for the first rule that applies to a conjunction, in its words.
#![tactic(auto)]

ghost use Rattle.std.specs.Prelude.{◌≤◌, ◌<◌, ◌≡◌, length, drop};
ghost use Rattle.language.specs.Limits.{desk};
ghost use Rattle.language.specs.Trees.{Literal, Conj};
ghost use Rattle.language.specs.Writing.{conj_words};
ghost use Rattle.language.specs.Fine.{fine_conj};
ghost use Rattle.views.specs.Standing.{LiteralAt, SomeLiteral, Conjunction};
ghost use Rattle.rules.specs.Places.{no_rule};
ghost use Rattle.counts.specs.Tables.{afresh};
ghost use Rattle.search.specs.Seeking.{lesser_of, best_at, best_alone, best_fold, best_before_clash, best_clash, best_of};

use clashes::{Clashing, first_clash};
use counts::TABLE;
use equations::rank_equation;
use folding::first_twice;
use language::Signature;
use memberships::rank_membership;
use rules::places::{AT_CLASH, AT_FOLD, NO_RULE, STOPS};
use views::{see, show_membership, swapped};

// The literal of the least rank so far: its rank, its place, and whether its equation is seen from the other side.
// kept: `swap` is one of two sides, and no sign that a place is missing.
#[derive(Clone, Copy)]
pub struct Best {
    pub rank: usize,
    pub at: usize,
    pub swap: bool,
}

// A literal that was passed: what it is, and the place after it.
#[derive(Clone, Copy)]
struct Passed {
    best: Best,
    end: usize,
}

// The rank of the literal at a place: of an equation the lesser of its two sides, the written one where they are equal. The place after it comes
// with it, so that its words need no other pass.
fn rank_at(k: &[u16], table: &[u16; TABLE], at: usize, s: Signature) -> Passed
    requires at_in_bounds { at < length k.now }
    requires some_literal { SomeLiteral k.now at }
    requires table_value { table.now ≡ afresh k.now }
    ensures { (result.best.at ≡ at) × ((before : Conj) (l : Literal) (behind : Conj) → LiteralAt k.now at before l behind → (result.best ≡ best_at s before l behind) × (drop result.end k.now ≡ conj_words behind)) }
{
    if k[at] == 5000 {
        let v = see(k, at);
        let end = v.end;
        let written = rank_equation(k, table, v, s);
        let other = rank_equation(k, table, swapped(v), s);
        if other < written {
            let best = Best {
                rank: other,
                at,
                swap: true,
            };
            return Passed { best, end };
        }
        let best = Best {
            rank: written,
            at,
            swap: false,
        };
        return Passed { best, end };
    }
    let m = show_membership(k, at);
    let end = m.end;
    let rank = rank_membership(k, m, s);
    let best = Best {
        rank,
        at,
        swap: false,
    };
    Passed { best, end }
}

// The place after a literal, kept behind the literal's own and within the words, whatever they are.
fn beyond(at: usize, end: usize, len: usize) -> usize
    requires { at < len }
    ensures { (at < result) × (result ≤ len) × (at < end → end ≤ len → result ≡ end) × (len ≤ end → result ≡ len) }
{
    if end <= at {
        return len;
    }
    if end < len { end } else { len }
}

// The one of the lesser rank, the first where they are equal.
fn lesser(a: Best, b: Best) -> Best
    ensures { result ≡ lesser_of a b }
{
    if b.rank < a.rank { b } else { a }
}

// The earliest literal of the least rank, by the rules of one literal.
fn find_alone(k: &[u16], table: &[u16; TABLE], s: Signature) -> Best
    requires conjunction { Conjunction k.now }
    requires table_value { table.now ≡ afresh k.now }
    ensures { (result.rank < no_rule → result.at < length k.now) × ((c : Conj) → fine_conj desk c → k.now ≡ conj_words c → result ≡ best_alone s c) }
{
    let mut best = Best {
        rank: NO_RULE,
        at: 0,
        swap: false,
    };
    let mut i = 0;
    while i < k.len() {
        let passed = rank_at(k, table, i, s);
        let here = passed.best;
        best = lesser(best, here);
        i = beyond(i, passed.end, k.len());
    }
    best
}

// The fold, at the earliest literal that stands twice.
fn find_fold(k: &[u16]) -> Best
    requires k_len_bound { length k.now ≤ desk.question }
    requires conjunction { Conjunction k.now }
    ensures { (result.rank < no_rule → result.at < length k.now) × ((c : Conj) → fine_conj desk c → k.now ≡ conj_words c → result ≡ best_fold c) }
{
    let at = first_twice(k);
    if at < k.len() {
        return Best {
            rank: AT_FOLD,
            at,
            swap: false,
        };
    }
    Best {
        rank: NO_RULE,
        at,
        swap: false,
    }
}

// The clash, at the earliest literal whose test clashes with a later one.
fn find_clash(k: &[u16], s: Signature) -> Best
    requires k_len_bound { length k.now ≤ desk.question }
    requires conjunction { Conjunction k.now }
    ensures { (result.rank < no_rule → result.at < length k.now) × ((c : Conj) → fine_conj desk c → k.now ≡ conj_words c → result ≡ best_clash s c) }
{
    match first_clash(k, s) {
        Clashing::Nowhere => Best {
            rank: NO_RULE,
            at: 0,
            swap: false,
        },
        Clashing::At(at) => Best {
            rank: AT_CLASH,
            at,
            swap: false,
        },
        Clashing::Stopped => Best {
            rank: STOPS,
            at: 0,
            swap: false,
        },
    }
}

// By the rules of one literal and the fold, which is looked for only where no rule before it applies.
fn find_before_clash(k: &[u16], table: &[u16; TABLE], s: Signature) -> Best
    requires k_len_bound { length k.now ≤ desk.question }
    requires conjunction { Conjunction k.now }
    requires table_value { table.now ≡ afresh k.now }
    ensures { (result.rank < no_rule → result.at < length k.now) × ((c : Conj) → fine_conj desk c → k.now ≡ conj_words c → result ≡ best_before_clash s c) }
{
    let alone = find_alone(k, table, s);
    if alone.rank < AT_FOLD {
        return alone;
    }
    lesser(alone, find_fold(k))
}

// The first rule that applies, at the earliest literal, the table having the counts of all variables. The clash is looked for only where no other rule applies.
pub fn find(k: &[u16], table: &[u16; TABLE], s: Signature) -> Best
    requires k_len_bound { length k.now ≤ desk.question }
    requires conjunction { Conjunction k.now }
    requires table_value { table.now ≡ afresh k.now }
    ensures { (result.rank < no_rule → result.at < length k.now) × ((c : Conj) → fine_conj desk c → k.now ≡ conj_words c → result ≡ best_of s c) }
{
    let b = find_before_clash(k, table, s);
    if b.rank < AT_CLASH {
        return b;
    }
    find_clash(k, s)
}
