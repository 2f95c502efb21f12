// Two shape tests of one variable, walked together in their words.
#![tactic(auto)]

mod follow;
mod pairs;
mod states;
mod sweeps;
mod symbols;
mod walking;

ghost use Rattle.std.specs.Prelude.{ℕ, ◌≤◌, ◌<◌, ◌≡◌, List, length};
ghost use Rattle.language.specs.Limits.{desk};
ghost use Rattle.language.specs.Trees.{Expr};
ghost use Rattle.expressions.specs.Standing.{Here};
ghost use Rattle.clash.specs.Walking.{Bounds, Stand};
ghost use Rattle.clash.specs.Sweeping.{FirstShares};
ghost use Rattle.clash.specs.Judging.{verdict_of, Two};

use crate::pairs::{CHAINS, STOPS, Stops, narrow};
use crate::sweeps::{leads_from, settle};
use crate::walking::{Places, walk_on};
use charts::chart;
use charts::table::Chart;
use language::limits::{PAIRS, QUESTION};
use state_classes::{STATES, class_all};

// Of two tests of one variable: something lies in both, nothing does, or the walk is too long to tell.
#[derive(Clone, Copy)]
pub enum Verdict {
    Shares,
    Clashes,
    Long,
}

// Whether the first pair shares a hedge, or, for a term variable, a term: that is what a symbol leads to with nothing left after it in both.
fn first_shares(
    chart: &Chart,
    classes: &[u16; STATES],
    at: Places,
    met: &Stops,
    marks: &[bool; STOPS],
    empty: &[bool; STOPS],
    term: bool,
) -> bool
    requires { Bounds at (length chart.now.words.now) × (0 < met.now.count) }
    ensures { FirstShares chart.now.words.now classes.now at met.now.left met.now.right met.now.count marks.now empty.now term result }
{
    if term {
        return leads_from(chart, classes, at, met, marks, empty, 0);
    }
    marks[0]
}

// Of two expressions whose states are classed.
fn judge_classed(chart: &Chart, classes: &[u16; STATES], at: Places, term: bool) -> Verdict
    requires { Bounds at (length chart.now.words.now) }
    ensures { (R S : Expr) → Stand chart.now.words.now classes.now at R S → result ≡ verdict_of term R S }
{
    let mut met = Stops {
        left: [0; STOPS],
        right: [0; STOPS],
        links: [0; STOPS],
        heads: [0; CHAINS],
        count: 0,
    };
    let one = narrow(2 * at.at);
    let other = narrow(2 * at.other);
    met.add(one, other);
    let mut empty = [false; STOPS];
    walk_on(chart, classes, at, &mut met, &mut empty);
    if PAIRS < met.count {
        return Verdict::Long;
    }
    let mut marks = empty;
    settle(chart, classes, at, &met, &mut marks);
    let shares = first_shares(chart, classes, at, &met, &marks, &empty, term);
    if shares {
        return Verdict::Shares;
    }
    Verdict::Clashes
}

// Of the two expressions at two places, for a term variable or for a hedge variable.
pub fn judge(k: &[u16], at: usize, other: usize, term: bool) -> Verdict
    requires k_len_bound { length k.now ≤ desk.question }
    requires two { Two k.now at other }
    ensures { (R S : Expr) (w v : List ℕ) → Here k.now at R w → Here k.now other S v → result ≡ verdict_of term R S }
{
    let mut ends = [0; QUESTION];
    let mut nulls = [false; QUESTION];
    chart(k, &mut ends, &mut nulls);
    let charted = Chart {
        words: k,
        ends: &ends,
        nulls: &nulls,
    };
    let a = charted.part(at);
    let b = charted.part(other);
    let end = a.end;
    let last = b.end;
    let mut classes = [0; STATES];
    class_all(&charted, at, end, &mut classes);
    class_all(&charted, other, last, &mut classes);
    let places = Places {
        at,
        end,
        other,
        last,
    };
    judge_classed(&charted, &classes, places, term)
}
