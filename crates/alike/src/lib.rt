// Whether two complete hedges in words are the same, where the children of some symbols come in any order.
#![tactic(auto)]

ghost use Rattle.std.specs.Prelude.{◌≤◌, length};
ghost use Rattle.language.specs.Limits.{desk};
ghost use Rattle.passing.specs.Places.{Hedge, Term};
ghost use Rattle.alike.specs.Tasks.{Passed, Fitted, Found, Compared, Pair, Decided};

use bools::or;
use language::limits::LITERAL;
use language::{Signature, Sym, any_unordered, is_unordered};
use passing::{clear, skip};

// The first tree from y on that is not taken, or the end of the hedge.
fn next(w: &[u16], y: usize, k: &[bool]) -> usize
    requires hedge { Hedge w.now y }
    requires w_in_bounds { length w.now ≤ length k.now }
    ensures { Passed w.now k.now y result }
{
    let mut p = y;
    while w[p] != 0 {
        if !k[p] {
            return p;
        }
        p = skip(w, p + 1);
    }
    p
}

// Whether the tree at p is not taken and is the same as the tree at x.
#[cycle(compare_find_fits)]
fn fits(w: &[u16], x: usize, p: usize, s: Signature, k: &mut [bool]) -> bool
    requires term { Term w.now x }
    requires term_2 { Term w.now p }
    requires w_in_bounds { length w.now ≤ length k.old }
    ensures { Fitted s w.now x p k.old k.new result }
{
    if k[p] {
        return false;
    }
    if w[x] != w[p] {
        return false;
    }
    let any = is_unordered(s, Sym(w[x] - 3000));
    compare(w, x + 1, p + 1, s, k, any)
}

// The place of the first tree from y on that is not taken and is the same as the tree at x; where order counts, only the first that is not taken
// may be it. Past the words where there is none.
#[cycle(compare_find_fits)]
fn find(w: &[u16], x: usize, y: usize, s: Signature, k: &mut [bool], any: bool) -> usize
    requires term { Term w.now x }
    requires hedge { Hedge w.now y }
    requires w_in_bounds { length w.now ≤ length k.old }
    ensures { Found s w.now x y k.old any k.new result }
{
    let mut p = y;
    while w[p] != 0 {
        if fits(w, x, p, s, k) {
            return p;
        }
        if !or(any, k[p]) {
            return w.len();
        }
        p = skip(w, p + 1);
    }
    w.len()
}

// Whether the hedge at j, in any order or as it stands, is the same as the hedge at i: each tree of the one takes a tree of the other.
// A mark is at the first word of a tree that is taken. Hedges below others stand apart, so one k serves all levels.
#[cycle(compare_find_fits)]
fn compare(w: &[u16], i: usize, j: usize, s: Signature, k: &mut [bool], any: bool) -> bool
    requires hedge { Hedge w.now i }
    requires hedge_2 { Hedge w.now j }
    requires w_in_bounds { length w.now ≤ length k.old }
    ensures { Compared s w.now i j k.old any k.new result }
{
    let end = skip(w, j);
    clear(k, j, end);
    let mut x = i;
    let mut y = j;
    while w[x] != 0 {
        let p = find(w, x, y, s, k, any);
        if w.len() <= p {
            return false;
        }
        k[p] = true;
        y = next(w, y, &k[..]);
        x = skip(w, x + 1);
    }
    w[y] == 0
}

// Whether the two hedges that these words are, the second from `mid` on, are the same.
// Inner: the words must be those of two complete hedges. Callers fill in first.
pub fn same(w: &[u16], mid: usize, s: Signature) -> bool
    requires pair { Pair w.now mid }
    requires w_len_bound { length w.now ≤ desk.literal }
    ensures { Decided s w.now mid result }
{
    let end = w.len();
    if w[0..mid] == w[mid..end] {
        return true;
    }
    if !any_unordered(s) {
        return false;
    }
    let mut k = [false; LITERAL];
    compare(w, 0, mid, s, &mut k, false)
}
