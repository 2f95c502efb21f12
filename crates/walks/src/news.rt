// What a step made: of each result the literals that are new or not as they were.
use crate::places::{literals_of, past};
use notation::Writer;
use walk_wording::rows::{becomes, case_is, nothing_new, one_more, row_ends};

// Which result it is, 0 for the only one, and how deep it stands; and the words that the step had and those that it left.
#[derive(Clone, Copy)]
pub(crate) struct News<'a> {
    pub writer: Writer<'a>,
    pub case: usize,
    pub depth: usize,
    pub k: &'a [u16],
    pub r: &'a [u16],
}

// How far both conjunctions are passed, and how many literals were shown.
#[derive(Clone, Copy)]
struct Passed {
    old: usize,
    new: usize,
    shown: usize,
}

impl News<'_> {
    fn begin(self) {
        if self.case == 0 {
            becomes(self.writer.out, self.depth);
            return;
        }
        case_is(self.writer.out, self.case, self.depth);
    }

    // The literal of the result, which stands in the place of one that ends here.
    fn show(self, p: Passed, end: usize) -> Passed {
        if p.shown == 0 {
            self.begin();
        }
        one_more(self.writer, self.r, p.new, p.shown == 0);
        Passed {
            old: end,
            new: past(self.r, p.new),
            shown: p.shown.saturating_add(1),
        }
    }

    // So many that were there before: those that are not as they were are shown.
    fn kept(self, from: Passed, n: usize) -> Passed {
        let mut p = from;
        for _ in 0..n {
            let end = past(self.k, p.old);
            let next = past(self.r, p.new);
            if self.k.get(p.old..end) == self.r.get(p.new..next) {
                p = Passed {
                    old: end,
                    new: next,
                    shown: p.shown,
                };
            } else {
                p = self.show(p, end);
            }
        }
        p
    }

    // So many that stand in the place of the old one.
    fn made(self, from: Passed, n: usize) -> Passed {
        let mut p = from;
        for _ in 0..n {
            p = self.show(p, p.old);
        }
        p
    }

    fn end(self, shown: usize) {
        if shown == 0 {
            if self.case == 0 {
                return;
            }
            self.begin();
            nothing_new(self.writer.out);
        }
        row_ends(self.writer.out);
    }

    // The result of a step at literal i, which stands at a place: those before it and those behind it are there in the result too.
    pub(crate) fn result(self, i: usize, at: usize) {
        let behind = literals_of(self.k).saturating_sub(i.saturating_add(1));
        let middle = literals_of(self.r).saturating_sub(i.saturating_add(behind));
        let none = Passed {
            old: 0,
            new: 0,
            shown: 0,
        };
        let p = self.kept(none, i);
        let q = self.made(p, middle);
        let there = Passed {
            old: past(self.k, at),
            new: q.new,
            shown: q.shown,
        };
        self.end(self.kept(there, behind).shown);
    }
}
