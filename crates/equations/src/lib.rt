// The first rule at an equation, seen from its left side.
#![tactic(auto)]

ghost use Rattle.std.specs.Prelude.{◌≡◌, ◌++◌};
ghost use Rattle.language.specs.Trees.{Hedge, Conj};
ghost use Rattle.views.specs.Views.{Sees};
ghost use Rattle.counts.specs.Tables.{Beside, EquationCounted};
ghost use Rattle.rules.specs.Ranks.{eqn_rank};

mod functors;
mod runs;
mod terms;

use counts::TABLE;
use functors::rank_node;
use language::Signature;
use runs::rank_run;
use terms::{rank_empty, rank_term};
use views::{Look, Side, View};

// The place of the first rule in the list, or NO_RULE where none applies.
pub fn rank_equation(k: &[u16], table: &[u16; TABLE], v: View, signature: Signature) -> usize
    requires { EquationCounted k.now table.now v }
    ensures { (before behind : Conj) (l r : Hedge) → Sees k.now v before l r behind → Beside table.now (before ++ behind) l r → result ≡ eqn_rank signature (before ++ behind) l r }
{
    let l = v.l;
    let look = l.look;
    match look {
        Look::Empty => rank_empty(k, v),
        Look::Term(x, lone) => rank_term(k, table, v, x, lone),
        Look::Run(p, lone) => rank_run(k, table, v, p, lone),
        Look::Node(f, lone, bare) => rank_node(k, table, v, signature, f, lone, bare),
    }
}
