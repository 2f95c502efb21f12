// What is left after a symbol, laid open from the outside: the part that stands last, and what is left before it. So two of them are compared part by
// part, and none is written out.
ghost use Rattle.std.specs.Prelude.{Some, ◌≡◌, false, ◌+◌, ◌<◌, eqb};
ghost use Rattle.language.specs.Kinds.{pick};
ghost use Rattle.state_classes.specs.Tails.{Peeled, Alike, Opened, SplitOf, Nothing, both_one, Same, TailOf, SameState};

use bools::and;
use charts::level_of;
use charts::table::Chart;
use words::{same_part, word};

// Of what is left after a symbol in an expression: the place of its last part, and that of the expression in which what is before it is left.
#[derive(Clone, Copy)]
pub struct Cut {
    pub part: usize,
    pub next: usize,
}

// Whether a second part is left behind the first: that of a concatenation, where it is not eps.
fn adds(x: u16, bare: bool) -> bool
    ensures { result ≡ pick bare false (eqb x 7001) }
{
    if bare { false } else { x == 7001 }
}

// What is left after the symbol at p of the expression at a place, if anything is.
fn peel(chart: &Chart, at: usize, p: usize) -> Option<Cut>
    ensures { Peeled chart.now.words.now at p result }
{
    let k = chart.words;
    // kept: goes on to the part behind which the symbol stands, which may be many places further
    let mut x = at;
    while x < k.len() {
        let w = k[x];
        if w < 7000 {
            return None;
        }
        if w == 7003 {
            return Some(Cut {
                part: x,
                next: x + 1,
            });
        }
        let a = chart.part(x + 1);
        let mid = a.end;
        if mid <= p {
            x = mid;
        } else {
            let b = chart.part(mid);
            if adds(w, b.bare) {
                return Some(Cut {
                    part: mid,
                    next: x + 1,
                });
            }
            x += 1;
        }
    }
    None
}

// Whether the same expression stands at two places.
fn same_at(chart: &Chart, a: usize, b: usize) -> bool
    ensures { Alike chart.now.words.now a b result }
{
    let k = chart.words;
    if a == b {
        return true;
    }
    let p = chart.part(a);
    let q = chart.part(b);
    same_part(k, a, p.end, b, q.end)
}

// An expression in the words, or what is left of it after a symbol.
// kept: both kinds have a place, by which the recursion of `same` goes down, so that an enum would ask for it by a match each time.
#[derive(Clone, Copy)]
pub struct Tail {
    pub at: usize,
    pub symbol: usize,
    pub rest: bool,
}

// A tail laid open that is not nothing: one expression in the words, or a concatenation, by its second part, and where the rest of it is left.
// kept: both kinds have a value of their own.
#[derive(Clone, Copy)]
pub enum Laid {
    One(usize),
    Two(Cut),
}

pub(crate) fn lay_open(chart: &Chart, t: Tail) -> Option<Laid>
    ensures { Opened chart.now.words.now t result }
{
    if t.rest {
        let a = peel(chart, t.at, t.symbol)?;
        return match peel(chart, a.next, t.symbol) {
            None => Some(Laid::One(a.part)),
            Some(_) => Some(Laid::Two(a)),
        };
    }
    Some(Laid::One(t.at))
}

// A tail as a concatenation: the rest of it, and the place of its second part.
#[derive(Clone, Copy)]
pub struct Split {
    pub rest: Tail,
    pub part: usize,
}

// What was laid open as a concatenation; where it is none, the place of the expression that it is.
pub(crate) fn take_apart(chart: &Chart, t: Tail, o: Laid) -> Result<Split, usize>
    requires { Opened chart.now.words.now t (Some o) }
    ensures { SplitOf chart.now.words.now t result }
{
    let k = chart.words;
    let symbol = t.symbol;
    match o {
        Laid::One(part) => {
            if word(k, part) == 7001 {
                let a = chart.part(part + 1);
                return Ok(Split {
                    rest: Tail {
                        at: part + 1,
                        symbol,
                        rest: false,
                    },
                    part: a.end,
                });
            }
            Err(part)
        }
        Laid::Two(c) => Ok(Split {
            rest: Tail {
                at: c.next,
                symbol,
                rest: true,
            },
            part: c.part,
        }),
    }
}

// Whether what was laid open is nothing, or eps in the words.
fn is_nothing(k: &[u16], o: Option<Laid>) -> bool
    ensures { Nothing k.now o result }
{
    match o {
        None => true,
        Some(l) => match l {
            Laid::One(part) => word(k, part) == 7000,
            Laid::Two(_) => false,
        },
    }
}

// The places of two expressions, where both are in the words.
fn both_one(a: Laid, b: Laid) -> Option<(usize, usize)>
    ensures { result ≡ both_one a b }
{
    match a {
        Laid::One(p) => match b {
            Laid::One(q) => Some((p, q)),
            Laid::Two(_) => None,
        },
        Laid::Two(_) => None,
    }
}

// Whether two tails are the same expression, by their second parts and then by what is before these.
fn same(chart: &Chart, s: Tail, t: Tail) -> bool
    ensures { Same chart.now.words.now s t result }
{
    let k = chart.words;
    let a = lay_open(chart, s);
    let b = lay_open(chart, t);
    let Some(x) = a else {
        return is_nothing(k, b);
    };
    let Some(y) = b else {
        return is_nothing(k, a);
    };
    if let Some((p, q)) = both_one(x, y) {
        return same_at(chart, p, q);
    }
    let Ok(c) = take_apart(chart, s, x) else {
        return false;
    };
    let Ok(d) = take_apart(chart, t, y) else {
        return false;
    };
    if same_at(chart, c.part, d.part) {
        return same(chart, c.rest, d.rest);
    }
    false
}

// A state of the expression at a place, as a tail.
pub(crate) fn tail_of(chart: &Chart, at: usize, s: usize) -> Tail
    ensures { TailOf chart.now.words.now at s result }
{
    let symbol = s / 2;
    if s % 2 == 0 {
        return Tail {
            at: symbol,
            symbol: 0,
            rest: false,
        };
    }
    let level = level_of(chart, at, symbol);
    Tail {
        at: level,
        symbol,
        rest: true,
    }
}

// Whether two states of the expression at a place mean the same expression.
pub(crate) fn same_state(chart: &Chart, at: usize, s: usize, t: usize) -> bool
    ensures { SameState chart.now.words.now at s t result }
{
    let a = tail_of(chart, at, s);
    let b = tail_of(chart, at, t);
    same(chart, a, b)
}
