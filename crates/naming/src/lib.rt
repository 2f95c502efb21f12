// A step that is named: whether the rule of a place in the list applies at a literal, as it is written or with its sides swapped.
#![tactic(auto)]

ghost use Rattle.std.specs.Prelude.{◌<◌, ◌≡◌, length};
ghost use Rattle.language.specs.Trees.{Literal, Conj};
ghost use Rattle.rules.specs.Places.{at_clash};
ghost use Rattle.views.specs.Standing.{LiteralAt, SomeLiteral};
ghost use Rattle.counts.specs.Tables.{afresh};
ghost use Rattle.naming.specs.Naming.{makes, named_at, Folds};

use applies::literal_applies;
use bools::and;
use counts::TABLE;
use folding::later_equal;
use language::Signature;
use rules::places::AT_FOLD;

// The fold: the literal's words stand again behind it. It has no other side.
fn folds(k: &[u16], at: usize, swap: bool) -> bool
    requires at_in_bounds { at < length k.now }
    requires some_literal { SomeLiteral k.now at }
    ensures { Folds k.now at swap result }
{
    let again = later_equal(k, at) < k.len();
    and(!swap, again)
}

// The rule of that rank applies at the literal at a place, seen from that side: any rule but the clash. The table has the counts of all variables.
pub fn applies_at(
    rank: usize,
    k: &[u16],
    table: &[u16; TABLE],
    at: usize,
    swap: bool,
    s: Signature,
) -> bool
    requires at_in_bounds { (at < length k.now) × (rank ≡ at_clash → ⊥) }
    requires some_literal { SomeLiteral k.now at }
    requires table_value { table.now ≡ afresh k.now }
    ensures { (before : Conj) (l : Literal) (behind : Conj) → LiteralAt k.now at before l behind → result ≡ makes (named_at s swap rank before l behind) }
{
    if rank == AT_FOLD {
        return folds(k, at, swap);
    }
    literal_applies(rank, k, table, at, swap, s)
}
