// What is shown of a conjunction and of a step, in rows.
use crate::clashing::partner;
use crate::news::News;
use crate::places::{part, past};
use crate::rooms::{Frame, body, place};
use language::limits::ROOM;
use notation::Writer;
use rules::places::{AT_CLASH, AT_FOLD};
use walk_wording::Act;
use walk_wording::rows::{
    alternative, case_begins, clashed, dropped, literal_row, step_begins, step_says,
};

// How many words stand before a result that a named step leaves.
pub(crate) const FRAME: usize = 2;

// Every literal of an alternative, a row for each.
fn literals(w: Writer<'_>, k: &[u16]) {
    let mut at = 0;
    for _ in 0..k.len() {
        if k.len() <= at {
            return;
        }
        literal_row(w, k, at, 1);
        at = past(k, at);
    }
}

// What a conjunction begins with: as an alternative, as a case, or as the only result of the step before.
pub(crate) fn heading(w: Writer<'_>, k: &[u16], f: Frame) {
    if f.step == 0 {
        alternative(w.out, usize::from(f.number), k.len() > 0);
        literals(w, k);
    } else if f.case > 0 {
        let depth = usize::from(f.depth).saturating_sub(1);
        case_begins(w.out, usize::from(f.case), usize::from(f.step), depth);
    }
}

// The place behind the result at a place, which stands behind its frame.
fn behind(work: &[u16], at: usize) -> usize {
    at.saturating_add(FRAME + place(work, at))
}

// The results, each behind its frame, from a place on: how many there are.
pub(crate) fn count(work: &[u16], begin: usize) -> usize {
    let mut at = begin;
    for n in 0..ROOM {
        if ROOM <= at {
            return n;
        }
        at = behind(work, at);
    }
    ROOM
}

// The words of the result at a place.
pub(crate) fn words_of(work: &[u16], at: usize) -> &[u16] {
    part(work, at.saturating_add(FRAME), place(work, at))
}

// Which case a result is: none where it is the only one.
pub(crate) fn case_number(n: usize, i: usize) -> usize {
    if n == 1 { 0 } else { i.saturating_add(1) }
}

// Results that a named step leaves in a room, from a place on.
#[derive(Clone, Copy)]
pub(crate) struct Left<'a> {
    pub work: &'a [u16],
    pub begin: usize,
}

// What each result has new.
fn news_of(writer: Writer<'_>, k: &[u16], literal: usize, t: Act, left: Left<'_>, depth: usize) {
    let mut at = left.begin;
    for i in 0..t.cases {
        let r = words_of(left.work, at);
        let news = News {
            writer,
            case: case_number(t.cases, i),
            depth,
            k,
            r,
        };
        news.result(literal, t.at);
        at = at.saturating_add(FRAME).saturating_add(r.len());
    }
}

// Why nothing is left.
fn ends(w: Writer<'_>, one: &[u16], k: &[u16], t: Act, depth: usize) {
    if t.rule == AT_CLASH {
        if let Some(second) = partner(one, k, t.at) {
            clashed(w, k, t.at, second, depth);
            return;
        }
    }
    dropped(w, k, t, depth);
}

// A step that was made of a question of one conjunction, in rows.
pub(crate) fn told(
    w: Writer<'_>,
    one: &[u16],
    literal: usize,
    t: Act,
    left: Left<'_>,
    step: usize,
    f: Frame,
) {
    let k = body(one);
    let depth = usize::from(f.depth);
    step_begins(w, k, t, step, depth);
    if t.cases == 0 {
        ends(w, one, k, t, depth + 1);
        return;
    }
    step_says(w, k, t, depth + 1);
    if t.rule != AT_FOLD {
        news_of(w, k, literal, t, left, depth + 1);
    }
}
