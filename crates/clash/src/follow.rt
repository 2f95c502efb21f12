// Which symbols of an expression can be read first, and which after another: marks on their places, by recursion over the expression's parts.
ghost use Rattle.std.specs.Prelude.{◌+◌, ◌≤◌, ◌<◌, ◌≡◌, length, set, true, false, eqb};
ghost use Rattle.language.specs.Kinds.{pick};
ghost use Rattle.clash.specs.Marks.{Begun, Resumed};

use charts::later;
use charts::table::Chart;

// One mark.
fn mark(marks: &mut [bool], at: usize)
    requires { at < length marks.old }
    ensures { marks.new ≡ set marks.old at true }
{
    marks[at] = true;
}

// Whether the second part cannot be read first: that of a concatenation whose first is not nullable.
pub(crate) fn shut(x: u16, null: bool) -> bool
    ensures { result ≡ pick null false (eqb x 7001) }
{
    if null { false } else { x == 7001 }
}

// Marks the symbols of the expression at a place that can be read first.
pub(crate) fn begin(chart: &Chart, at: usize, marks: &mut [bool])
    requires { length chart.now.words.now ≤ length marks.old }
    ensures { Begun chart.now.words.now at marks.old marks.new }
{
    let k = chart.words;
    if k.len() <= at {
        return;
    }
    let x = k[at];
    if x == 7000 {
        return;
    }
    if x < 7000 {
        mark(marks, at);
        return;
    }
    begin(chart, at + 1, marks);
    if x == 7003 {
        return;
    }
    let a = chart.part(at + 1);
    let mid = a.end;
    if shut(x, a.null) {
        return;
    }
    begin(chart, mid, marks);
}

// Marks the symbols of the expression at a place that can be read after the one at p. Whether nothing more need be read.
pub(crate) fn resume(chart: &Chart, at: usize, p: usize, marks: &mut [bool]) -> bool
    requires { length chart.now.words.now ≤ length marks.old }
    ensures { Resumed chart.now.words.now at p marks.old marks.new result }
{
    let k = chart.words;
    if k.len() <= at {
        return false;
    }
    let x = k[at];
    if x == 7000 {
        return false;
    }
    if x < 7000 {
        return true;
    }
    let a = chart.part(at + 1);
    let mid = a.end;
    if later(x, mid, p) {
        return resume(chart, mid, p, marks);
    }
    let more = resume(chart, at + 1, p, marks);
    if x == 7002 {
        return more;
    }
    if more {
        if x == 7003 {
            begin(chart, at + 1, marks);
            return true;
        }
        begin(chart, mid, marks);
        let b = chart.part(mid);
        return b.null;
    }
    false
}
