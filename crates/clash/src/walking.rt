// The walk from two expressions: from each pair of states that it has met on to the pairs that symbols lead to which can be read next in both.
ghost use Rattle.std.specs.Prelude.{◌+◌, ◌*◌, ◌≤◌, ◌<◌, ◌≡◌, length};
ghost use Rattle.language.specs.Limits.{desk};
ghost use Rattle.clash.specs.Chains.{Grown, stops};
ghost use Rattle.clash.specs.Symbols.{Listed};
ghost use Rattle.clash.specs.Walking.{Twin, TwinWith, TwinOf, Bounds, Went, Gone, step_to};

use crate::pairs::{STOPS, Stops};
use crate::symbols::symbols_after;
use bools::and;
use charts::table::Chart;
use language::limits::{PAIRS, QUESTION};
use state_classes::STATES;

// The two pairs that the symbols at p and q lead to, where these are one symbol.
fn meet_twin(k: &[u16], classes: &[u16; STATES], p: usize, q: usize, met: &mut Stops)
    requires { (p < length k.now) × (q < length k.now) × (length k.now ≤ desk.question) }
    ensures { Grown (Twin k.now classes.now p q) met.old.left met.old.right met.old.count met.new.left met.new.right met.new.count }
{
    if k[p] == k[q] {
        met.meet(classes[2 * p + 2], classes[2 * q + 2]);
        met.meet(classes[2 * p + 1], classes[2 * q + 1]);
    }
}

// Those that the symbol at p leads to with each of a list.
fn meet_with(
    k: &[u16],
    classes: &[u16; STATES],
    p: usize,
    qs: &[u16; QUESTION],
    count: usize,
    met: &mut Stops,
)
    requires { (p < length k.now) × (length k.now ≤ desk.question) × Listed (length k.now) qs.now count }
    ensures { Grown (TwinWith k.now classes.now p qs.now count) met.old.left met.old.right met.old.count met.new.left met.new.right met.new.count }
{
    for j in 0..count {
        meet_twin(k, classes, p, usize::from(qs[j]), met);
    }
}

// Those that each symbol of the one list leads to with each of the other.
fn meet_all(
    k: &[u16],
    classes: &[u16; STATES],
    ps: &[u16; QUESTION],
    ones: usize,
    qs: &[u16; QUESTION],
    others: usize,
    met: &mut Stops,
)
    requires { (length k.now ≤ desk.question) × Listed (length k.now) ps.now ones × Listed (length k.now) qs.now others }
    ensures { Grown (TwinOf k.now classes.now ps.now ones qs.now others) met.old.left met.old.right met.old.count met.new.left met.new.right met.new.count }
{
    for i in 0..ones {
        meet_with(k, classes, usize::from(ps[i]), qs, others, met);
    }
}

// Where the two expressions stand, from their first word to the place after their last.
#[derive(Clone, Copy)]
pub struct Places {
    pub at: usize,
    pub end: usize,
    pub other: usize,
    pub last: usize,
}

// The pair of states a and b: where it goes on to is listed. Whether neither of the two needs to read anything.
fn go_on(
    chart: &Chart,
    classes: &[u16; STATES],
    at: Places,
    a: usize,
    b: usize,
    met: &mut Stops,
) -> bool
    requires { Bounds at (length chart.now.words.now) }
    ensures { Went chart.now.words.now classes.now at a b met.old.left met.old.right met.old.count met.new.left met.new.right (step_to met.new.count result) }
{
    let k = chart.words;
    let mut ps = [0; QUESTION];
    let mut qs = [0; QUESTION];
    let x = symbols_after(chart, at.at, at.end, a, &mut ps);
    let y = symbols_after(chart, at.other, at.last, b, &mut qs);
    meet_all(k, classes, &ps, x.count, &qs, y.count, met);
    and(x.null, y.null)
}

// From the first pair on, until nothing new is met or there are too many. Which pairs have the empty hedge in both is noted.
pub(crate) fn walk_on(
    chart: &Chart,
    classes: &[u16; STATES],
    at: Places,
    met: &mut Stops,
    empty: &mut [bool; STOPS],
)
    requires { Bounds at (length chart.now.words.now) × (met.old.count ≡ 1) × (length empty.old ≡ stops) }
    ensures { Gone chart.now.words.now classes.now at met.old.left met.old.right met.new.left met.new.right empty.new met.new.count × (length empty.new ≡ stops) }
{
    // kept: more is met while the loop goes on, so that no range tells its end
    let mut i = 0;
    while i < met.count {
        if PAIRS < met.count {
            return;
        }
        let a = usize::from(met.left[i]);
        let b = usize::from(met.right[i]);
        empty[i] = go_on(chart, classes, at, a, b, met);
        i += 1;
    }
}
