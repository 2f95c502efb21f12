// The kinds of terms under an unordered symbol, and where they stand: how many terms, how many places, the places.
ghost use Rattle.std.specs.Prelude.{◌≡◌, ◌+◌, ◌-◌, ◌≤◌, ◌<◌, length, set};
ghost use Rattle.passing.specs.Places.{Hedge};
ghost use Rattle.member.specs.Gathering.{Kinds, Found, Countable, Joins, Undoable, Undone, Roomy, Capped, Noted};

use crate::{Fitted, Joined};
use language::wide;
use passing::skip;
use slices::store;
use words::same_part;

// The kind from `at` on that has the places which stand from top + 2 to t; `top` where none has.
fn find(w: &[u16], at: usize, top: usize, t: usize) -> usize
    requires kinds { Kinds w.now at top }
    requires top_bound { (top + 2 ≤ t) × (t ≤ length w.now) }
    ensures { Found w.now at top t result }
{
    if at < top {
        let next = at + 2 + wide(w[at + 1]);
        if same_part(w, at + 2, next, top + 2, t) {
            return at;
        }
        return find(w, next, top, t);
    }
    top
}

// One term more of the kind that has the places which stand from top + 2 to t: of a new one, where none has.
pub fn join(w: &mut [u16], base: usize, top: usize, t: usize) -> Joined
    requires kinds { Kinds w.old base top }
    requires top_bound { (top + 2 ≤ t) × (t ≤ length w.old) × (length w.old < 65536) }
    requires countable { Countable w.old base top t }
    ensures { Joins w.old base top t w.new result }
{
    let o = find(w, base, top, t);
    if o == top {
        store(w, top, 1);
        store(w, top + 1, t - top - 2);
        return Joined { at: o, top: t };
    }
    w[o] += 1;
    Joined { at: o, top }
}

// One term less of the kind at o; the new kind is behind `top`, and stays.
pub fn undo(w: &mut [u16], o: usize, top: usize)
    requires { Undoable w.old o top }
    ensures { Undone w.old o top w.new }
{
    if o == top {
        return;
    }
    w[o] -= 1;
}

// A kind of one term, with one place.
pub fn alone(w: &mut [u16], top: usize, q: usize)
    requires { (top + 2 < length w.old) × (length w.old < 65536) × (q < 65536) }
    ensures { w.new ≡ set (set (set w.old top 1) (top + 1) 1) (top + 2) q }
{
    store(w, top, 1);
    store(w, top + 1, 1);
    store(w, top + 2, q);
}

// The place of a symbol that will do is written to w at t, before `cap`; end: the place after the symbol's expression.
pub fn note(w: &mut [u16], t: usize, cap: usize, at: usize, yes: bool, end: usize) -> Fitted
    requires { (t ≤ cap) × (cap ≤ length w.old) × (at < 65536) }
    ensures { Noted w.old t cap at yes end w.new result }
{
    if yes {
        if t < cap {
            store(w, t, at);
            return Fitted {
                end,
                top: t + 1,
                full: false,
            };
        }
        return Fitted {
            end,
            top: t,
            full: true,
        };
    }
    Fitted {
        end,
        top: t,
        full: false,
    }
}

// Where the places of the term at j have to end, of n words, so that there is room for the hedge.
pub fn room(h: &[u16], j: usize, n: usize) -> usize
    requires hedge { Hedge h.now j }
    requires roomy { Roomy h.now j n }
    ensures { Capped h.now j n result }
{
    n + 4 - 2 * (skip(h, j) - j)
}
