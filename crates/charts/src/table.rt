// Words with their whole chart, as all that walks in expressions is handed it.
ghost use Rattle.std.proofs.Props.{props};
ghost use Rattle.charts.specs.Charted.{ChartedFrom};

use crate::part_at;
use expressions::Part;

// Words, where the expression at each place in them ends, and whether it is nullable.
#[derive(Clone, Copy)]
pub struct Chart<'a> {
    pub words: &'a [u16],
    pub ends: &'a [usize],
    pub nulls: &'a [bool],
    pub ghost charted: { ChartedFrom 0 words.now ends.now nulls.now } by { Prim.hlevel props },
}

impl<'a> Chart<'a> {
    ghost use Rattle.expressions.specs.Standing.{Parted};

    // What the chart tells of the expression at a place.
    pub fn part(&self, at: usize) -> Part
        ensures { Parted self.now.words.now at result }
    {
        part_at(self.words, self.ends, self.nulls, at)
    }
}
