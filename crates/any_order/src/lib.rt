// Whether terms of several kinds can be shared out among the symbols of an expression so that, in some order, they are a member of it. The terms of a kind may
// be put on the same symbols.
#![tactic(auto)]

ghost use Rattle.std.specs.Prelude.{◌≡◌, ◌+◌, ◌-◌, ◌≤◌, ◌<◌, max, min, length};
ghost use Rattle.language.specs.Limits.{desk};
ghost use Rattle.any_order.specs.Places.{Expression};
ghost use Rattle.any_order.specs.Searching.{Past, Emptied, Met, Added, Repeated, Small, Few, Grows, Spanned, Possible, Ready, Some, Onward, Placed, Attempted, Markable, Marked, Listed, NotedFrom, Headed, Asked, Shared};

use bools::or;
use language::limits::QUESTION;
use language::wide;
use slices::store;

// How many members it may be: at least so many, and at most so many, or without end.
#[derive(Clone, Copy)]
struct Range {
    pub least: usize,
    pub most: usize,
    pub endless: bool,
}

// The place after an expression, and how many of its members there may be.
#[derive(Clone, Copy)]
struct Span {
    pub end: usize,
    pub range: Range,
}

// Which kind comes next, how many terms of it are left, and from which place on they may be put.
#[derive(Clone, Copy)]
struct Next {
    pub kind: usize,
    pub times: usize,
    pub floor: usize,
}

// The place after an expression.
fn past(e: &[u16], at: usize) -> usize
    requires { Expression e.now at }
    ensures { Past e.now at result }
{
    let x = e[at];
    if x == 7000 {
        return at + 1;
    }
    let a = past(e, at + 1);
    if x < 7000 {
        return a;
    }
    if x == 7003 {
        return a;
    }
    past(e, a)
}

// ---- Ranges.

fn more(a: usize, b: usize) -> usize
    ensures { result ≡ max a b }
{
    if a < b { b } else { a }
}

fn fewer(a: usize, b: usize) -> usize
    ensures { result ≡ min a b }
{
    if a < b { a } else { b }
}

// Whether nothing lies in it.
fn empty(r: Range) -> bool
    ensures { Emptied r result }
{
    if r.endless {
        return false;
    }
    if r.most < r.least {
        return true;
    }
    false
}

// What lies in both.
fn meet(a: Range, b: Range) -> Range
    ensures { Met a b result }
{
    let least = more(a.least, b.least);
    if a.endless {
        return Range {
            least,
            most: b.most,
            endless: b.endless,
        };
    }
    if b.endless {
        return Range {
            least,
            most: a.most,
            endless: false,
        };
    }
    Range {
        least,
        most: fewer(a.most, b.most),
        endless: false,
    }
}

// The sums of one of each.
fn plus(a: Range, b: Range) -> Range
    requires small { Small 1000000000000 a }
    requires small_2 { Small 1000000000000 b }
    ensures { Added a b result }
{
    if empty(a) {
        return a;
    }
    if empty(b) {
        return b;
    }
    Range {
        least: a.least + b.least,
        most: a.most + b.most,
        endless: or(a.endless, b.endless),
    }
}

// How many stars make one of them.
fn repeat(a: Range) -> Range
    ensures { Repeated a result }
{
    if empty(a) {
        return a;
    }
    Range {
        least: fewer(a.least, 1),
        most: 0,
        endless: true,
    }
}

// ---- What may still come of the numbers c.

// Whether the symbol at a place may get more: l has the last kind that may be put there.
fn grows(l: &[u16], at: usize, kind: usize, floor: usize) -> bool
    requires at_in_bounds { at < length l.now }
    requires kind_bound { kind < 1000000000000 }
    ensures { Grows l.now at kind floor result }
{
    let last = wide(l[at]);
    if kind + 1 < last {
        return true;
    }
    if last < kind + 1 {
        return false;
    }
    if floor <= at {
        return true;
    }
    false
}

// How many members of the expression the numbers may become.
fn reckon<'a>(
    e: &'a [u16],
    at: usize,
    c: &'a [u16],
    l: &'a [u16],
    kind: usize,
    floor: usize,
) -> Span
    requires expression { Expression e.now at }
    requires e_len_bound { length e.now ≤ desk.question }
    requires e_in_bounds { length e.now ≤ length c.now }
    requires e_in_bounds_2 { length e.now ≤ length l.now }
    requires few { Few c.now }
    requires kind_bound { kind < 1000000000000 }
    ensures { Spanned e.now at c.now l.now kind floor result }
{
    let x = e[at];
    if x == 7000 {
        return Span {
            end: at + 1,
            range: Range {
                least: 0,
                most: 0,
                endless: true,
            },
        };
    }
    if x < 7000 {
        let end = past(e, at + 1);
        let n = wide(c[at]);
        return Span {
            end,
            range: Range {
                least: n,
                most: n,
                endless: grows(l, at, kind, floor),
            },
        };
    }
    let a = reckon(e, at + 1, c, l, kind, floor);
    if x == 7003 {
        return Span {
            end: a.end,
            range: repeat(a.range),
        };
    }
    let b = reckon(e, a.end, c, l, kind, floor);
    if x == 7001 {
        return Span {
            end: b.end,
            range: meet(a.range, b.range),
        };
    }
    Span {
        end: b.end,
        range: plus(a.range, b.range),
    }
}

// Whether one member may come of the numbers.
fn possible<'a>(
    e: &'a [u16],
    at: usize,
    c: &'a [u16],
    l: &'a [u16],
    kind: usize,
    floor: usize,
) -> bool
    requires expression { Expression e.now at }
    requires e_len_bound { length e.now ≤ desk.question }
    requires e_in_bounds { length e.now ≤ length c.now }
    requires e_in_bounds_2 { length e.now ≤ length l.now }
    requires few { Few c.now }
    requires kind_bound { kind < 1000000000000 }
    ensures { Possible e.now at c.now l.now kind floor result }
{
    let s = reckon(e, at, c, l, kind, floor);
    let r = s.range;
    if 1 < r.least {
        return false;
    }
    if r.endless {
        return true;
    }
    if r.most < 1 {
        return false;
    }
    true
}

// ---- The search.

// After a term was put down: another of this kind, or the next kind.
fn after(w: &[u16], kind: usize, times: usize, floor: usize, top: usize) -> Next
    requires { Some w.now kind top }
    ensures { Onward w.now kind times floor top result }
{
    if 0 < times {
        return Next { kind, times, floor };
    }
    let next = kind + 2 + wide(w[kind + 1]);
    if next < top {
        return Next {
            kind: next,
            times: wide(w[next]),
            floor: 0,
        };
    }
    Next {
        kind: next,
        times: 0,
        floor: 0,
    }
}

// Whether the search goes on to the end, with the next term of the kind put on p.
#[cycle(attempt_place)]
fn attempt<'a>(
    e: &'a [u16],
    at: usize,
    w: &'a [u16],
    l: &'a [u16],
    c: &mut [u16],
    top: usize,
    kind: usize,
    times: usize,
    p: usize,
) -> bool
    requires expression { Expression e.now at }
    requires e_len_bound { length e.now ≤ desk.question }
    requires e_in_bounds { length e.now ≤ length c.old }
    requires e_in_bounds_2 { length e.now ≤ length l.now }
    requires ready { Ready w.now kind top c.old l.now times }
    requires kind_lt_top { kind < top }
    requires p_in_bounds { p < length c.old }
    ensures attempted { Attempted e.now at w.now c.old l.now kind (times - 1) p top result }
    ensures c_unchanged { c.new ≡ c.old }
{
    c[p] += 1;
    let n = after(w, kind, times - 1, p, top);
    let yes = place(e, at, w, l, c, top, n.kind, n.times, n.floor);
    c[p] -= 1;
    yes
}

// Whether the terms of the kinds from `kind` on, so many of the first and put on its places from `floor` on, can be shared out.
#[cycle(attempt_place)]
fn place<'a>(
    e: &'a [u16],
    at: usize,
    w: &'a [u16],
    l: &'a [u16],
    c: &mut [u16],
    top: usize,
    kind: usize,
    times: usize,
    floor: usize,
) -> bool
    requires expression { Expression e.now at }
    requires e_len_bound { length e.now ≤ desk.question }
    requires e_in_bounds { length e.now ≤ length c.old }
    requires e_in_bounds_2 { length e.now ≤ length l.now }
    requires ready { Ready w.now kind top c.old l.now times }
    ensures placed { Placed e.now at w.now c.old l.now kind times floor top result }
    ensures c_unchanged { c.new ≡ c.old }
{
    if kind == top {
        return possible(e, at, c, l, top, 0);
    }
    let end = kind + 2 + wide(w[kind + 1]);
    for i in kind + 2..end {
        let p = wide(w[i]);
        if p < floor {
            continue;
        }
        if !possible(e, at, c, l, kind, p) {
            return false;
        }
        if attempt(e, at, w, l, c, top, kind, times, p) {
            return true;
        }
    }
    false
}

// Notes the kind at each of its places.
fn mark(w: &[u16], kind: usize, end: usize, l: &mut [u16])
    requires { Markable w.now kind end l.old }
    ensures { Marked w.now kind end l.old l.new }
{
    for i in kind + 2..end {
        store(l, wide(w[i]), kind + 1);
    }
}

// Notes for each place the last kind that may be put there.
fn note(w: &[u16], kind: usize, top: usize, l: &mut [u16])
    requires { Listed w.now kind top l.old }
    ensures { NotedFrom w.now kind top l.old l.new }
{
    if kind < top {
        let next = kind + 2 + wide(w[kind + 1]);
        mark(w, kind, next, l);
        note(w, next, top, l);
    }
}

fn heading(w: &[u16], kind: usize, top: usize) -> usize
    requires { top ≤ length w.now }
    ensures { Headed w.now kind top result }
{
    if kind < top {
        return wide(w[kind]);
    }
    0
}

// Whether the terms of the kinds that stand in w from `base` to `top`, all together and in some order, are a member of the expression that stands in e at `at`.
// Inner: an expression and kinds with places of its words must stand there.
pub fn some_order<'a>(e: &'a [u16], at: usize, w: &'a [u16], base: usize, top: usize) -> bool
    requires asked { Asked e.now at w.now base top }
    requires e_len_bound { length e.now ≤ desk.question }
    ensures { Shared e.now at w.now base top result }
{
    let mut c = [0; QUESTION];
    let mut l = [0; QUESTION];
    note(w, base, top, &mut l);
    let times = heading(w, base, top);
    place(e, at, w, &l, &mut c, top, base, times, 0)
}
