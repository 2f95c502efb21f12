// A chart of words: where each expression in them ends and whether it is nullable, found once for all places, from the last word on. By it the expression
// is found that a symbol is a symbol of.
#![tactic(auto)]

pub mod table;

ghost use Rattle.std.specs.Prelude.{◌+◌, ◌≤◌, ◌<◌, ◌≡◌, false, eqb, leb, length};
ghost use Rattle.language.specs.Kinds.{pick};
ghost use Rattle.expressions.specs.Standing.{Parted};
ghost use Rattle.charts.specs.Charted.{ChartedFrom, Charts};
ghost use Rattle.charts.specs.Levels.{Lowered, Leveled};

use crate::table::Chart;
use bools::{and, or};
use expressions::Part;

// What the chart tells of the expression at a place.
pub fn part_at(k: &[u16], ends: &[usize], nulls: &[bool], at: usize) -> Part
    requires { ChartedFrom at k.now ends.now nulls.now }
    ensures { Parted k.now at result }
{
    if k.len() <= at {
        return Part {
            end: at,
            null: false,
            bare: false,
        };
    }
    Part {
        end: ends[at],
        null: nulls[at],
        bare: k[at] == 7000,
    }
}

// The same for a place whose followers are charted.
fn part_by(k: &[u16], ends: &[usize], nulls: &[bool], at: usize) -> Part
    requires { (at < length k.now) × ChartedFrom (at + 1) k.now ends.now nulls.now }
    ensures { Parted k.now at result }
{
    let x = k[at];
    if x == 7000 {
        return Part {
            end: at + 1,
            null: true,
            bare: true,
        };
    }
    let a = part_at(k, ends, nulls, at + 1);
    let mid = a.end;
    if x == 7003 {
        return Part {
            end: mid,
            null: true,
            bare: false,
        };
    }
    if x < 7000 {
        return Part {
            end: mid,
            null: false,
            bare: false,
        };
    }
    let b = part_at(k, ends, nulls, mid);
    let end = b.end;
    if x == 7001 {
        let null = and(a.null, b.null);
        return Part {
            end,
            null,
            bare: false,
        };
    }
    let null = or(a.null, b.null);
    Part {
        end,
        null,
        bare: false,
    }
}

// The chart of all places. What stands behind them in the two tables stays.
pub fn chart(k: &[u16], ends: &mut [usize], nulls: &mut [bool])
    requires { (length k.now ≤ length ends.old) × (length k.now ≤ length nulls.old) }
    ensures { Charts k.now ends.old nulls.old ends.new nulls.new }
{
    for i in (0..k.len()).rev() {
        let p = part_by(k, ends, nulls, i);
        ends[i] = p.end;
        nulls[i] = p.null;
    }
}

// Whether the symbol at p stands in the second part of a concatenation or a choice.
pub fn later(x: u16, mid: usize, p: usize) -> bool
    ensures { result ≡ pick (eqb x 7003) false (leb mid p) }
{
    if x == 7003 { false } else { mid <= p }
}

// From a place towards a symbol further on: the part of a star, a concatenation or a choice in which it stands.
fn lower(chart: &Chart, x: usize, j: usize) -> usize
    requires { x < length chart.now.words.now }
    ensures { Lowered chart.now.words.now x j result }
{
    let k = chart.words;
    let a = chart.part(x + 1);
    let mid = a.end;
    if later(k[x], mid, j) { mid } else { x + 1 }
}

// Where the expression stands that the symbol at j is a symbol of, in the expression at a place.
pub fn level_of(chart: &Chart, at: usize, j: usize) -> usize
    ensures { Leveled chart.now.words.now at j result }
{
    let k = chart.words;
    // kept: goes on to the part in which the symbol stands, which may be many places further
    let mut x = at;
    let mut l = at;
    while x < j {
        if k.len() <= x {
            return l;
        }
        if k[x] < 7000 {
            l = x + 1;
            x += 1;
        } else {
            x = lower(chart, x, j);
        }
    }
    l
}
