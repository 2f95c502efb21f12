// What can be read next in a state of an expression: in the expression at a place, or in what is left after a symbol.
ghost use Rattle.std.specs.Prelude.{◌≤◌, length};
ghost use Rattle.clash.specs.Following.{Followed};

use crate::follow::{begin, resume};
use charts::level_of;
use charts::table::Chart;

// Marks the symbols that can be read next in a state of the expression at a place. Whether nothing need be read.
pub(crate) fn follow(chart: &Chart, at: usize, s: usize, marks: &mut [bool]) -> bool
    requires { length chart.now.words.now ≤ length marks.old }
    ensures { Followed chart.now.words.now at s marks.old marks.new result }
{
    let p = s / 2;
    if s % 2 == 0 {
        begin(chart, p, marks);
        let a = chart.part(p);
        return a.null;
    }
    let l = level_of(chart, at, p);
    resume(chart, l, p, marks)
}
