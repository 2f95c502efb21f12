// Membership of a complete hedge in an expression, both given in words: in time words times words, but for the children of unordered symbols.
#![tactic(auto)]

ghost use Rattle.std.specs.Prelude.{◌+◌, ◌≤◌, ◌<◌, length};
ghost use Rattle.language.specs.Limits.{desk};
ghost use Rattle.any_order.specs.Places.{Expression};
ghost use Rattle.passing.specs.Places.{Hedge, Term, Skipped};
ghost use Rattle.member.specs.Places.{Looked, Shifted, Accepted, Both, Decided};
ghost use Rattle.member.specs.Gathering.{Symbol, Inner, Spared, Scene, Lent, Gathered, Answered, FittedAll, Shuffles, ShufflesBy};

mod kinds;
mod parts;

use crate::kinds::{alone, join, note, room, undo};
use crate::parts::{enters, follows, keep, together};
use any_order::some_order;
use bools::{and, or};
use language::limits::{LITERAL, QUESTION};
use language::{Signature, Sym, any_unordered, is_unordered};
use passing::{clear, skip};

// words for the kinds of terms: two for each word of a hedge, and as many for places
const KINDS: usize = 4 * LITERAL;

// The place after an expression, and whether the empty hedge is in its language.
#[derive(Clone, Copy)]
struct Seen {
    pub end: usize,
    pub null: bool,
}

// The same, and whether what was read so far may end here.
#[derive(Clone, Copy)]
struct Step {
    pub end: usize,
    pub null: bool,
    pub fin: bool,
}

// The place after an expression, the place after what was written, and whether there was no room for all.
// kept: both places are used where it is full too, so that an Option would lose them.
#[derive(Clone, Copy)]
struct Fitted {
    pub end: usize,
    pub top: usize,
    pub full: bool,
}

// The kind that has one term more, and the place after the kinds.
#[derive(Clone, Copy)]
struct Joined {
    pub at: usize,
    pub top: usize,
}

// Whether one of an expression's symbols will do; where none does, the place after it.
// kept: the place goes with the answer no, so that an Option would say None for yes.
#[derive(Clone, Copy)]
struct Tried {
    pub end: usize,
    pub yes: bool,
}

// Recursion over the expression's parts. Place and emptiness in one pass: one after the other they would cost the square.
fn look(e: &[u16], at: usize) -> Seen
    requires { Expression e.now at }
    ensures { Looked e.now at result }
{
    let x = e[at];
    if x == 7000 {
        return Seen {
            end: at + 1,
            null: true,
        };
    }
    let a = look(e, at + 1);
    if x < 7000 {
        return Seen {
            end: a.end,
            null: false,
        };
    }
    if x == 7003 {
        return Seen {
            end: a.end,
            null: true,
        };
    }
    let n = a.end;
    let b = look(e, n);
    if x == 7001 {
        return Seen {
            end: b.end,
            null: and(a.null, b.null),
        };
    }
    Seen {
        end: b.end,
        null: or(a.null, b.null),
    }
}

// Whether the term that stands in h at j is of the symbol that stands in e at p.
#[cycle(accepts_any_ask_crowd_fit_shift)]
fn ask<'a>(
    s: Signature,
    e: &'a [u16],
    p: usize,
    h: &'a [u16],
    j: usize,
    k: &mut [bool],
    w: &mut [u16],
    top: usize,
) -> bool
    requires symbol { Symbol e.now p }
    requires term { Term h.now j }
    requires scene { Scene e.now h.now k.old }
    requires lent { Lent s h.now (j + 1) w.old top }
    ensures { Answered s e.now p h.now j k.old k.new w.old w.new top result }
{
    let x = e[p];
    if x == h[j] {
        if is_unordered(s, Sym(x - 3000)) {
            return any(s, e, p + 1, h, j + 1, k, w, top, top);
        }
        return accepts(s, e, p + 1, h, j + 1, k, w, top);
    }
    false
}

// The places of the expression's symbols that the term can be are written to w from t on, before `cap`.
#[cycle(accepts_any_ask_crowd_fit_shift)]
fn fit<'a>(
    s: Signature,
    e: &'a [u16],
    at: usize,
    h: &'a [u16],
    j: usize,
    k: &mut [bool],
    w: &mut [u16],
    t: usize,
    cap: usize,
) -> Fitted
    requires expression { Expression e.now at }
    requires term { Term h.now j }
    requires scene { Scene e.now h.now k.old }
    requires lent { Lent s h.now (j + 1) w.old cap }
    requires t_le_cap { (t ≤ cap) × (cap ≤ length w.old) }
    ensures { FittedAll s e.now at h.now j k.old k.new w.old w.new t cap result }
{
    let x = e[at];
    if x == 7000 {
        return Fitted {
            end: at + 1,
            top: t,
            full: false,
        };
    }
    if x < 7000 {
        let l = look(e, at + 1);
        let yes = ask(s, e, at, h, j, k, w, t);
        return note(w, t, cap, at, yes, l.end);
    }
    let a = fit(s, e, at + 1, h, j, k, w, t, cap);
    if x == 7003 {
        return a;
    }
    let n = a.end;
    let b = fit(s, e, n, h, j, k, w, a.top, cap);
    Fitted {
        end: b.end,
        top: b.top,
        full: or(a.full, b.full),
    }
}

// Whether the hedge that stands in h at j, with the terms of the kinds in w from `base` to `top`, is in some order read by the expression at `at`. The term at
// j is added to the kind that can be the same symbols.
#[cycle(accepts_any_ask_crowd_fit_shift)]
fn any<'a>(
    s: Signature,
    e: &'a [u16],
    at: usize,
    h: &'a [u16],
    j: usize,
    k: &mut [bool],
    w: &mut [u16],
    base: usize,
    top: usize,
) -> bool
    requires expression { Expression e.now at }
    requires scene { Scene e.now h.now k.old }
    requires gathered { Gathered e.now h.now j w.old base top }
    ensures { Shuffles s e.now at h.now j k.old k.new w.old w.new base top result }
{
    if h[j] == 0 {
        return some_order(e, at, w, base, top);
    }
    let next = skip(h, j + 1);
    let cap = room(h, j, w.len());
    let f = fit(s, e, at, h, j, k, w, top + 2, cap);
    if f.full {
        let c = crowd(s, e, at, at, h, j, next, k, w, base, top);
        return c.yes;
    }
    let t = f.top;
    if t == top + 2 {
        return false;
    }
    let o = join(w, base, top, t);
    let yes = any(s, e, at, h, next, k, w, base, o.top);
    undo(w, o.at, top);
    yes
}

// Where there is no room for the places: each of them alone, as a kind of its own.
#[cycle(accepts_any_ask_crowd_fit_shift)]
fn crowd<'a>(
    s: Signature,
    e: &'a [u16],
    at: usize,
    q: usize,
    h: &'a [u16],
    j: usize,
    next: usize,
    k: &mut [bool],
    w: &mut [u16],
    base: usize,
    top: usize,
) -> Tried
    requires expression { Expression e.now at }
    requires inner { Inner e.now at q }
    requires skipped { Skipped h.now (j + 1) next }
    requires term { Term h.now j }
    requires scene { Scene e.now h.now k.old }
    requires gathered { Gathered e.now h.now j w.old base top }
    ensures { ShufflesBy s e.now at q h.now j k.old k.new w.old w.new base top result }
{
    let x = e[q];
    if x == 7000 {
        return Tried {
            end: q + 1,
            yes: false,
        };
    }
    if x < 7000 {
        let l = look(e, q + 1);
        if ask(s, e, q, h, j, k, w, top) {
            alone(w, top, q);
            let yes = any(s, e, at, h, next, k, w, base, top + 3);
            return Tried { end: l.end, yes };
        }
        return Tried {
            end: l.end,
            yes: false,
        };
    }
    let a = crowd(s, e, at, q + 1, h, j, next, k, w, base, top);
    if x == 7003 {
        return a;
    }
    if a.yes {
        return a;
    }
    let n = a.end;
    crowd(s, e, at, n, h, j, next, k, w, base, top)
}

// One more term, which stands in h at j: the marks among k that belong to the expression at `at`. m: the term may be its first.
#[cycle(accepts_any_ask_crowd_fit_shift)]
fn shift<'a>(
    s: Signature,
    e: &'a [u16],
    at: usize,
    h: &'a [u16],
    j: usize,
    k: &mut [bool],
    w: &mut [u16],
    top: usize,
    m: bool,
) -> Step
    requires expression { Expression e.now at }
    requires term { Term h.now j }
    requires scene { Scene e.now h.now k.old }
    requires lent { Lent s h.now (j + 1) w.old top }
    ensures spared { Spared w.old w.new top }
    ensures shifted { Shifted s e.now at h.now j k.old m k.new result }
{
    let x = e[at];
    if x == 7000 {
        return Step {
            end: at + 1,
            null: true,
            fin: false,
        };
    }
    if x < 7000 {
        let l = look(e, at + 1);
        if m {
            let yes = ask(s, e, at, h, j, k, w, top);
            return Step {
                end: l.end,
                null: false,
                fin: yes,
            };
        }
        return Step {
            end: l.end,
            null: false,
            fin: false,
        };
    }
    let old = k[at];
    let a = shift(s, e, at + 1, h, j, k, w, top, enters(x, m, old));
    keep(k, at, x, a.fin);
    if x == 7003 {
        return Step {
            end: a.end,
            null: true,
            fin: a.fin,
        };
    }
    let n = a.end;
    let b = shift(s, e, n, h, j, k, w, top, follows(x, m, old, a.null));
    together(x, a, b)
}

// Whether the hedge that stands in h at i is read by the expression at `at`. Inner expressions stand apart, so one k serves all levels.
#[cycle(accepts_any_ask_crowd_fit_shift)]
fn accepts<'a>(
    s: Signature,
    e: &'a [u16],
    at: usize,
    h: &'a [u16],
    i: usize,
    k: &mut [bool],
    w: &mut [u16],
    top: usize,
) -> bool
    requires expression { Expression e.now at }
    requires hedge { Hedge h.now i }
    requires scene { Scene e.now h.now k.old }
    requires lent { Lent s h.now i w.old top }
    ensures spared { Spared w.old w.new top }
    ensures accepted { Accepted s e.now at h.now i k.old k.new result }
{
    let l = look(e, at);
    let n = l.end;
    clear(k, at, n);
    let mut j = i;
    let mut first = true;
    let mut fin = l.null;
    while h[j] != 0 {
        let t = shift(s, e, at, h, j, k, w, top, first);
        fin = t.fin;
        first = false;
        j = skip(h, j + 1);
    }
    fin
}

// Whether the complete hedge that stands in h at j is a member of the expression that stands in e at `at`.
// Inner: the words must be those of an expression and of a complete hedge. Callers read first.
pub fn member<'a>(s: Signature, e: &'a [u16], at: usize, h: &'a [u16], j: usize) -> bool
    requires both { Both e.now at h.now j }
    requires e_len_bound { length e.now ≤ desk.question }
    requires h_len_bound { length h.now ≤ desk.literal }
    ensures { Decided s e.now at h.now j result }
{
    let mut k = [false; QUESTION];
    if any_unordered(s) {
        let mut w = [0; KINDS];
        return accepts(s, e, at, h, j, &mut k, &mut w, 0);
    }
    let mut w = [0; 0];
    accepts(s, e, at, h, j, &mut k, &mut w, 0)
}
