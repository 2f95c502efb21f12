// The step that three words name: a rule, a literal and a side.
#![tactic(auto)]

ghost use Rattle.std.specs.Prelude.{◌≤◌, ◌<◌, ◌≡◌, length};
ghost use Rattle.language.specs.Limits.{desk};
ghost use Rattle.language.specs.Trees.{Literal, Conj};
ghost use Rattle.language.specs.Writing.{conj_words};
ghost use Rattle.language.specs.Fine.{fine_conj};
ghost use Rattle.views.specs.Standing.{LiteralAt, SomeLiteral, Conjunction};
ghost use Rattle.counts.specs.Tables.{afresh};
ghost use Rattle.telling.specs.Telling.{triple_of, chosen_by, ClashNamed};

use clash::Verdict;
use clashes::test_behind;
use counts::{TABLE, count_in};
use language::{Refusal, Signature, wide};
use literals::literal_place;
use naming::applies_at;
use rules::places::AT_CLASH;
use search::Best;

// The clash at the literal at a place, which has no other side.
fn named_clash(k: &[u16], at: usize, swap: bool, s: Signature) -> Result<Best, Refusal>
    requires at_in_bounds { (at < length k.now) × (length k.now ≤ desk.question) }
    requires some_literal { SomeLiteral k.now at }
    ensures { (before : Conj) (l : Literal) (behind : Conj) → LiteralAt k.now at before l behind → ClashNamed s at swap before l behind result }
{
    if swap {
        return Err(Refusal::BadStep);
    }
    match test_behind(k, at, s) {
        Verdict::Shares => Err(Refusal::BadStep),
        Verdict::Clashes => Ok(Best {
            rank: AT_CLASH,
            at,
            swap,
        }),
        Verdict::Long => Err(Refusal::LongWalk),
    }
}

// The step of these three words, where the rule applies there; else why none is made. The table has the counts of all variables.
pub fn named_by(
    k: &[u16],
    table: &[u16; TABLE],
    rule: u16,
    literal: u16,
    side: u16,
    s: Signature,
) -> Result<Best, Refusal>
    requires k_len_bound { length k.now ≤ desk.question }
    requires conjunction { Conjunction k.now }
    requires table_value { table.now ≡ afresh k.now }
    ensures { (c : Conj) → fine_conj desk c → k.now ≡ conj_words c → result ≡ chosen_by s c (triple_of rule literal side) }
{
    if 1 < side {
        return Err(Refusal::BadStep);
    }
    let at = literal_place(k, wide(literal));
    if k.len() <= at {
        return Err(Refusal::BadStep);
    }
    let rank = wide(rule);
    let swap = side == 1;
    if rank == AT_CLASH {
        return named_clash(k, at, swap, s);
    }
    if applies_at(rank, k, table, at, swap, s) {
        return Ok(Best { rank, at, swap });
    }
    Err(Refusal::BadStep)
}

// The same for a conjunction that stands by itself: its variables are counted first.
pub fn named_step(
    k: &[u16],
    rule: u16,
    literal: u16,
    side: u16,
    s: Signature,
) -> Result<Best, Refusal>
    requires k_len_bound { length k.now ≤ desk.question }
    requires conjunction { Conjunction k.now }
    ensures { (c : Conj) → fine_conj desk c → k.now ≡ conj_words c → result ≡ chosen_by s c (triple_of rule literal side) }
{
    let mut table = [0; TABLE];
    count_in(k, 0, k.len(), &mut table);
    named_by(k, &table, rule, literal, side, s)
}
