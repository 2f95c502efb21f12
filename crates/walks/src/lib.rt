// A walk through an answer, step by step, from a question, its answer and its trail. It only prints. Every step is made anew by `step_named`; where the
// first conjunction that waits has the words of the next line, it is that line, for no rule applies to a line.
#![tactic(auto)]

mod clashing;
mod news;
mod places;
mod rooms;
mod shown;

use language::limits::{QUESTION, ROOM};
use named_steps::step_named;
use notation::Writer;
use places::literal_from;
use rooms::{
    BODY, Frame, HEAD, WAITING, body, carry, head, is_line, is_settled, lay_out, narrow, place,
    read_frame, wait,
};
use shown::{FRAME, Left, case_number, count, heading, told, words_of};
use std::io::Stdout;
use walk_wording::Act;
use walk_wording::rows::{open, settled, summary, too_long};
use words::word;

// The words of a step in a trail.
const TRIPLE: usize = 3;

// Where the waiting conjunctions begin, the steps made and the lines met.
#[derive(Clone, Copy)]
struct Place {
    at: usize,
    made: usize,
    line: usize,
}

// How deep the results of a step are: cases stand deeper than what they are cases of.
fn depth_below(f: Frame, n: usize) -> u16 {
    if n == 1 {
        return f.depth;
    }
    narrow(usize::from(f.depth) + 1)
}

// How many words n results that are in their rooms take behind frames of a walk.
fn taken(begin: usize, n: usize) -> usize {
    ROOM.saturating_sub(begin)
        .saturating_add(n.saturating_mul(HEAD - FRAME))
}

// The results put in place of the conjunction, from a place on.
fn stack(left: Left<'_>, n: usize, step: usize, f: Frame, waiting: &mut [u16], start: usize) {
    let mut at = left.begin;
    let mut to = start;
    for i in 0..n {
        let r = words_of(left.work, at);
        let g = Frame {
            words: narrow(r.len()),
            number: f.number,
            depth: depth_below(f, n),
            case: narrow(case_number(n, i)),
            step: narrow(step),
        };
        wait(r, 0, g, waiting, to);
        at = at.saturating_add(FRAME).saturating_add(r.len());
        to = to.saturating_add(HEAD).saturating_add(r.len());
    }
}

// What is walked through, and what it is written out with.
#[derive(Clone, Copy)]
struct Walker<'a> {
    writer: Writer<'a>,
    question: &'a [u16],
    answer: &'a [u16],
    trail: &'a [u16],
}

impl Walker<'_> {
    // A word of the step that comes next in the trail: its rule, its literal, its side.
    fn next(self, made: usize, i: usize) -> u16 {
        word(self.trail, made.saturating_mul(TRIPLE).saturating_add(i))
    }

    // That step, of a conjunction, with so many results.
    fn act(self, k: &[u16], made: usize, n: usize) -> Act {
        Act {
            rule: usize::from(self.next(made, 0)),
            at: literal_from(k, usize::from(self.next(made, 1))),
            swap: self.next(made, 2) == 1,
            cases: n,
        }
    }

    // The results of a step stand in the room from a place on: they are shown and wait.
    fn stepped(
        self,
        one: &[u16],
        left: Left<'_>,
        f: Frame,
        waiting: &mut [u16],
        p: Place,
    ) -> Place {
        let k = body(one);
        let n = count(left.work, left.begin);
        let step = p.made.saturating_add(1);
        let literal = usize::from(self.next(p.made, 1));
        told(
            self.writer,
            one,
            literal,
            self.act(k, p.made, n),
            left,
            step,
            f,
        );
        let next = p.at.saturating_add(HEAD).saturating_add(k.len());
        let at = next.saturating_sub(taken(left.begin, n));
        stack(left, n, step, f, waiting, at);
        Place {
            at,
            made: step,
            line: p.line,
        }
    }

    // The step that comes next in the trail, of a question of one conjunction: where the walk then stands, unless it cannot be made.
    fn step(self, one: &[u16], f: Frame, waiting: &mut [u16], p: Place) -> Option<Place> {
        let rule = self.next(p.made, 0);
        let literal = self.next(p.made, 1);
        let side = self.next(p.made, 2);
        let mut work = [0u16; ROOM];
        match step_named(one, f.number, rule, literal, side, &mut work) {
            Ok(begin) => {
                let left = Left { work: &work, begin };
                Some(self.stepped(one, left, f, waiting, p))
            }
            Err(_) => None,
        }
    }

    // A branch that ends in the next line.
    fn line(self, f: Frame, n: usize, p: Place) -> Place {
        let depth = usize::from(f.depth);
        if is_settled(self.answer, p.line) {
            settled(self.writer.out, p.line, depth);
        } else {
            open(self.writer.out, p.line, depth);
        }
        Place {
            at: p.at.saturating_add(HEAD).saturating_add(n),
            made: p.made,
            line: p.line.saturating_add(1),
        }
    }

    // The first waiting conjunction, as a question of its own.
    fn go_on(self, one: &[u16], f: Frame, waiting: &mut [u16], p: Place) -> Option<Place> {
        let k = body(one);
        heading(self.writer, k, f);
        if is_line(self.answer, p.line, k) {
            return Some(self.line(f, k.len(), p));
        }
        self.step(one, f, waiting, p)
    }

    // One turn of the walk, a step or a line, unless it is over.
    fn turn(self, waiting: &mut [u16], p: Place) -> Option<Place> {
        if WAITING <= p.at {
            return None;
        }
        let f = read_frame(waiting, p.at);
        let n = usize::from(f.words);
        if QUESTION - BODY < n {
            too_long(self.writer.out, usize::from(f.depth));
            return None;
        }
        let mut one = [0u16; QUESTION];
        head(self.question, n, &mut one);
        carry(waiting, p.at.saturating_add(HEAD), n, &mut one, BODY);
        self.go_on(&one[0..BODY + n], f, waiting, p)
    }

    // So many turns: every step and every line has one.
    fn turns(self, n: usize) {
        let mut waiting = [0u16; WAITING];
        let mut p = Place {
            at: lay_out(self.question, &mut waiting),
            made: 0,
            line: 0,
        };
        for _ in 0..n {
            let Some(next) = self.turn(&mut waiting, p) else {
                return;
            };
            p = next;
        }
    }
}

// Walks through the answer of a question that was solved with this trail. `names` has the names of the text that it came as (crates/notation).
pub fn walk(out: Stdout, question: &[u16], answer: &[u16], trail: &[u16], names: &[u8]) {
    let walker = Walker {
        writer: Writer::new(out, word(question, 0), names),
        question,
        answer,
        trail,
    };
    let steps = trail.len() / TRIPLE;
    let lines = place(answer, 0);
    walker.turns(steps.saturating_add(lines));
    summary(out, lines, place(answer, 1), steps);
}

// The words of a trail in decimal, a row for each step.
pub fn write_trail(out: Stdout, trail: &[u16]) {
    for (i, w) in trail.iter().enumerate() {
        let end = if i % TRIPLE == TRIPLE - 1 { '\n' } else { ' ' };
        let _ = print!(out; "{w}{end}");
    }
}
