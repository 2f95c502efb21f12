// The symbols that can be read next in a state, as a list of their places.
ghost use Rattle.std.specs.Prelude.{◌+◌, ◌≤◌, ◌<◌, ◌≡◌, length, set};
ghost use Rattle.language.specs.Kinds.{pick};
ghost use Rattle.language.specs.Limits.{desk};
ghost use Rattle.clash.specs.Symbols.{Collected, Symboled};

use crate::pairs::narrow;
use crate::states::follow;
use charts::table::Chart;
use language::limits::QUESTION;

// How many symbols can be read next, and whether nothing need be read.
// kept: both are told of every state, so that neither is missing where the other is not.
#[derive(Clone, Copy)]
pub struct Symbols {
    pub count: usize,
    pub null: bool,
}

// A place is listed behind n others, if it is marked. How many there are then.
fn collect_one(mark: bool, i: usize, list: &mut [u16; QUESTION], n: usize) -> usize
    requires { (i < desk.question) × (n < desk.question) }
    ensures { (result ≡ pick mark (n + 1) n) × (list.new ≡ pick mark (set list.old n i) list.old) }
{
    if mark {
        list[n] = narrow(i);
        return n + 1;
    }
    n
}

// The marked places of a part of the words, in order.
fn collect(marks: &[bool; QUESTION], from: usize, to: usize, list: &mut [u16; QUESTION]) -> usize
    requires { (from ≤ to) × (to ≤ desk.question) × (length list.old ≡ desk.question) }
    ensures { Collected marks.now from to list.new result }
{
    let mut n = 0;
    for i in from..to {
        n = collect_one(marks[i], i, list, n);
    }
    n
}

// The symbols that can be read next in a state of the expression from `at` to `end`.
pub(crate) fn symbols_after(
    chart: &Chart,
    at: usize,
    end: usize,
    s: usize,
    list: &mut [u16; QUESTION],
) -> Symbols
    requires { (at ≤ end) × (end ≤ length chart.now.words.now) × (length chart.now.words.now ≤ desk.question) × (length list.old ≡ desk.question) }
    ensures { Symboled chart.now.words.now at end s list.new result }
{
    let mut marks = [false; QUESTION];
    let null = follow(chart, at, s, &mut marks);
    let count = collect(&marks, at, end, list);
    Symbols { count, null }
}
