// Which of the pairs of a walk have a hedge in both: those with the empty hedge, and those from which a symbol leads to two pairs that have one.
ghost use Rattle.std.specs.Prelude.{◌+◌, ◌*◌, ◌≤◌, ◌<◌, ◌≡◌, length};
ghost use Rattle.language.specs.Limits.{desk};
ghost use Rattle.clash.specs.Chains.{stops};
ghost use Rattle.clash.specs.Symbols.{Listed};
ghost use Rattle.clash.specs.Walking.{Bounds};
ghost use Rattle.clash.specs.Sweeping.{Known, Leads, LeadsWith, LeadsOf, LeadsFrom, SweptAt, Swept, Settled};

use crate::pairs::{STOPS, Stops};
use crate::symbols::symbols_after;
use crate::walking::Places;
use bools::{and, or};
use charts::table::Chart;
use language::limits::QUESTION;
use state_classes::STATES;

// Whether a pair is one of the first n, and is marked.
fn known(met: &Stops, marks: &[bool; STOPS], a: u16, b: u16) -> bool
    ensures { Known met.now.left met.now.right met.now.count marks.now a b result }
{
    let i = met.find(a, b);
    if i == 0 {
        return false;
    }
    marks[i - 1]
}

// Whether the symbols at p and q are one, and the pairs that they lead to are marked: that of what is inside, and that of what is left.
fn leads(
    k: &[u16],
    classes: &[u16; STATES],
    met: &Stops,
    inner: &[bool; STOPS],
    rest: &[bool; STOPS],
    p: usize,
    q: usize,
) -> bool
    requires { (p < length k.now) × (q < length k.now) × (length k.now ≤ desk.question) }
    ensures { Leads k.now classes.now met.now.left met.now.right met.now.count inner.now rest.now p q result }
{
    if k[p] == k[q] {
        let x = known(met, inner, classes[2 * p + 2], classes[2 * q + 2]);
        let y = known(met, rest, classes[2 * p + 1], classes[2 * q + 1]);
        return and(x, y);
    }
    false
}

// The same of the symbol at p and some of a list.
fn leads_with(
    k: &[u16],
    classes: &[u16; STATES],
    met: &Stops,
    inner: &[bool; STOPS],
    rest: &[bool; STOPS],
    p: usize,
    qs: &[u16; QUESTION],
    count: usize,
) -> bool
    requires { (p < length k.now) × (length k.now ≤ desk.question) × Listed (length k.now) qs.now count }
    ensures { LeadsWith k.now classes.now met.now.left met.now.right met.now.count inner.now rest.now p qs.now count result }
{
    for j in 0..count {
        if leads(k, classes, met, inner, rest, p, usize::from(qs[j])) {
            return true;
        }
    }
    false
}

// The same of some symbol of the one list and some of the other.
fn leads_of(
    k: &[u16],
    classes: &[u16; STATES],
    met: &Stops,
    inner: &[bool; STOPS],
    rest: &[bool; STOPS],
    ps: &[u16; QUESTION],
    ones: usize,
    qs: &[u16; QUESTION],
    others: usize,
) -> bool
    requires { (length k.now ≤ desk.question) × Listed (length k.now) ps.now ones × Listed (length k.now) qs.now others }
    ensures { LeadsOf k.now classes.now met.now.left met.now.right met.now.count inner.now rest.now ps.now ones qs.now others result }
{
    for i in 0..ones {
        if leads_with(k, classes, met, inner, rest, usize::from(ps[i]), qs, others) {
            return true;
        }
    }
    false
}

// Whether from the i-th pair a symbol leads to pairs that are marked.
pub(crate) fn leads_from(
    chart: &Chart,
    classes: &[u16; STATES],
    at: Places,
    met: &Stops,
    inner: &[bool; STOPS],
    rest: &[bool; STOPS],
    i: usize,
) -> bool
    requires { Bounds at (length chart.now.words.now) × (i < met.now.count) }
    ensures { LeadsFrom chart.now.words.now classes.now at met.now.left met.now.right met.now.count inner.now rest.now i result }
{
    let k = chart.words;
    let mut ps = [0; QUESTION];
    let mut qs = [0; QUESTION];
    let a = usize::from(met.left[i]);
    let b = usize::from(met.right[i]);
    let x = symbols_after(chart, at.at, at.end, a, &mut ps);
    let y = symbols_after(chart, at.other, at.last, b, &mut qs);
    leads_of(k, classes, met, inner, rest, &ps, x.count, &qs, y.count)
}

// The i-th pair is marked, if a symbol leads from it to marked pairs. Whether it was not marked and is now.
fn sweep_at(
    chart: &Chart,
    classes: &[u16; STATES],
    at: Places,
    met: &Stops,
    marks: &mut [bool; STOPS],
    i: usize,
) -> bool
    requires { Bounds at (length chart.now.words.now) × (i < met.now.count) × (length marks.old ≡ stops) }
    ensures { SweptAt chart.now.words.now classes.now at met.now.left met.now.right met.now.count i marks.old marks.new result }
{
    if marks[i] {
        return false;
    }
    let found = leads_from(chart, classes, at, met, marks, marks, i);
    if found {
        marks[i] = true;
        return true;
    }
    false
}

// One sweep over the pairs, the last first. Whether one was marked.
fn sweep(
    chart: &Chart,
    classes: &[u16; STATES],
    at: Places,
    met: &Stops,
    marks: &mut [bool; STOPS],
) -> bool
    requires { Bounds at (length chart.now.words.now) × (length marks.old ≡ stops) }
    ensures { Swept chart.now.words.now classes.now at met.now.left met.now.right met.now.count marks.old marks.new result }
{
    let mut changed = false;
    for i in (0..met.count).rev() {
        let new = sweep_at(chart, classes, at, met, marks, i);
        changed = or(changed, new);
    }
    changed
}

// Sweep after sweep, until nothing more is marked.
pub(crate) fn settle(
    chart: &Chart,
    classes: &[u16; STATES],
    at: Places,
    met: &Stops,
    marks: &mut [bool; STOPS],
)
    requires { Bounds at (length chart.now.words.now) × (length marks.old ≡ stops) }
    ensures { Settled chart.now.words.now classes.now at met.now.left met.now.right met.now.count marks.old marks.new }
{
    let mut more = true;
    while more {
        more = sweep(chart, classes, at, met, marks);
    }
}
