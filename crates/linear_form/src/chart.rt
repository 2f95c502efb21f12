// Where each expression in the words ends, found once for all places, from the last word on.
ghost use Rattle.std.specs.Prelude.{◌≡◌, ◌≤◌, ◌<◌, ◌+◌, length, drop};
ghost use Rattle.expressions.specs.Passing.{reach};
ghost use Rattle.linear_form.specs.Charted.{ChartedFrom, Past};
ghost use Rattle.language.specs.Limits.{desk};

use language::wide;
use slices::store;

// The place after the expression at a place, read from the chart.
pub(crate) fn expression_end(k: &[u16], ends: &[u16], at: usize) -> usize
    requires { ChartedFrom at k.now ends.now }
    ensures { Past k.now at result }
{
    if k.len() <= at {
        return at;
    }
    wide(ends[at])
}

// The same for a place whose followers are charted.
fn end_by_parts(k: &[u16], ends: &[u16], at: usize) -> usize
    requires { (at < length k.now) × ChartedFrom (at + 1) k.now ends.now }
    ensures { result ≡ at + reach 1 (drop at k.now) }
{
    let x = k[at];
    if x == 7000 {
        return at + 1;
    }
    let mid = expression_end(k, ends, at + 1);
    if x <= 6999 {
        return mid;
    }
    if x == 7003 {
        return mid;
    }
    expression_end(k, ends, mid)
}

// The chart of all places.
pub(crate) fn chart(k: &[u16], ends: &mut [u16])
    requires { (length k.now ≤ desk.question) × (length k.now ≤ length ends.old) }
    ensures { ChartedFrom 0 k.now ends.new }
{
    for i in (0..k.len()).rev() {
        let e = end_by_parts(k, ends, i);
        store(ends, i, e);
    }
}
