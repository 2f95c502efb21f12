// A step in words: the results of the rule that the search found, in place.
#![tactic(auto)]

ghost use Rattle.std.specs.Prelude.{◌+◌, ◌≤◌, ◌<◌, ◌≡◌, List, ◌++◌, map, length, drop};
ghost use Rattle.language.specs.Limits.{desk};
ghost use Rattle.language.specs.Trees.{Literal, Conj};
ghost use Rattle.language.specs.Writing.{conj_words};
ghost use Rattle.plans.specs.Results.{results_of};
ghost use Rattle.views.specs.Standing.{LiteralAt};
ghost use Rattle.rules.specs.Reply.{results};
ghost use Rattle.rules.specs.Rules.{Fold};
ghost use Rattle.search.specs.Ranking.{side_answer, side_results};
ghost use Rattle.taking.specs.Taking.{Took};
ghost use Rattle.steps.specs.Asking.{RuleAt, AnswerAt, FoldHere};
ghost use Rattle.plans.specs.Planned.{Planned};
ghost use Rattle.rules.specs.Places.{at_m2};

use equation_plans::plan_equation;
use folding::later_equal;
use language::{Refusal, Signature};
use linear_form::step_monomials;
use membership_plans::plan_membership;
use plans::{Piece, Plan, Ways};
use recipes::few;
use results::step_planned;
use rules::places::{AT_CLASH, AT_FOLD, AT_M2};
use search::Best;
use views::{see, show_membership, swapped};
use words::next_literal;

// The plan of the rule of one literal of that rank at that literal; M2 has none.
fn plan_at(k: &[u16], b: Best, s: Signature) -> Plan
    requires at_in_bounds { (b.at < length k.now) × (b.rank ≡ at_m2 → ⊥) }
    requires answer_at { AnswerAt s k.now b }
    ensures { (before : Conj) (l : Literal) (behind : Conj) → LiteralAt k.now b.at before l behind → Planned k.now result before behind (side_answer s b.swap b.rank (before ++ behind) l) }
{
    let at = b.at;
    let rank = b.rank;
    if k[at] == 5000 {
        let v = see(k, at);
        let swap = b.swap;
        if swap {
            return plan_equation(s, rank, k, swapped(v));
        }
        return plan_equation(s, rank, k, v);
    }
    let m = show_membership(k, at);
    plan_membership(rank, k, m)
}

// The plan of the fold: all words but those of the first literal behind this one that has the same.
fn plan_fold(k: &[u16], at: usize) -> Plan
    requires at_in_bounds { at < length k.now }
    requires fold_here { FoldHere k.now at }
    ensures { (before : Conj) (l : Literal) (behind : Conj) (ks : List Conj) → LiteralAt k.now at before l behind → Fold l behind ≡ results ks → results_of k.now result ≡ map (λ (c : Conj). conj_words (before ++ c)) ks }
{
    let from = later_equal(k, at);
    let to = next_literal(k, from);
    let len = k.len();
    let none = Piece::Copy(0, 0);
    let first = few(
        Piece::Copy(0, from),
        Piece::Copy(to, len),
        none,
        none,
        none,
        0,
        0,
        0,
    );
    Plan {
        ways: Ways::One(0),
        first,
        second: first,
    }
}

// A step of the conjunction k, which has that number: the results of the rule of that rank at that literal, right before `next`, and of the same
// number. The answer is the place where they begin.
pub fn take_step(
    k: &[u16],
    b: Best,
    s: Signature,
    number: u16,
    out: &mut [u16],
    next: usize,
) -> Result<usize, Refusal>
    requires k_len_bound { (length k.now ≤ desk.question) × (b.at < length k.now) × (next ≤ length out.old) × (next ≤ desk.room) }
    requires rule_at { RuleAt s k.now b }
    ensures { (before : Conj) (l : Literal) (behind : Conj) (ks : List Conj) → LiteralAt k.now b.at before l behind → side_results s b.swap b.rank before l behind ≡ results ks → Took number (map conj_words ks) out.old next result out.new }
{
    if b.rank == AT_M2 {
        return step_monomials(k, b.at, number, out, next);
    }
    if b.rank == AT_FOLD {
        return step_planned(k, plan_fold(k, b.at), number, out, next);
    }
    if b.rank == AT_CLASH {
        // it leaves nothing
        return Ok(next);
    }
    step_planned(k, plan_at(k, b, s), number, out, next)
}
