// What stands in a conjunction's words: shapes of hedges and literals, read off them.
#![tactic(auto)]

ghost use Rattle.std.specs.Prelude.{ℕ, ◌+◌, ◌<◌, ◌≡◌, List, length};
ghost use Rattle.language.specs.Trees.{Hedge, Expr, eqn, mem, Conj};
ghost use Rattle.views.specs.Looks.{look_of, head, body_words};
ghost use Rattle.views.specs.Views.{Sided, Sees, Shows};
ghost use Rattle.views.specs.Standing.{Stands, LiteralAt};
ghost use Rattle.views.specs.Places.{node_at, look_at, side_at, view_at, shape_at, turned};

use language::{HedgeVar, Kind, Name, TermVar, classify};
use spans::{element_end, hedge_end};
use words::{next_literal, word};

// How a hedge begins: with which variable or name, whether nothing follows the first element, and for a name whether it has no children.
#[derive(Clone, Copy)]
pub enum Look {
    Empty,
    Term(TermVar, bool),
    Run(HedgeVar, bool),
    Node(Name, bool, bool),
}

// A hedge in the words: its place, the place after its first element, and the place after its 0.
#[derive(Clone, Copy)]
pub struct Side {
    pub from: usize,
    pub rest: usize,
    pub to: usize,
    pub look: Look,
}

// An equation in the words of a conjunction; l is the side that is looked at first.
#[derive(Clone, Copy)]
pub struct View {
    pub at: usize,
    pub l: Side,
    pub r: Side,
    pub end: usize,
    pub len: usize,
}

// A membership in the words of a conjunction: its hedge, the place of its expression and what the first word there is.
#[derive(Clone, Copy)]
pub struct Shape {
    pub at: usize,
    pub h: Side,
    pub expr: usize,
    pub first: Kind,
    pub end: usize,
    pub len: usize,
}

// How a hedge begins whose first element has this name.
fn node_at(k: &[u16], from: usize, rest: usize, name: Name) -> Look
    requires { from < length k.now }
    ensures { result ≡ node_at k.now from rest name }
{
    let y = word(k, rest);
    let z = word(k, from + 1);
    Look::Node(name, y == 0, z == 0)
}

// How the hedge at a place begins; `rest` is the place after its first element.
fn look_at(k: &[u16], from: usize, rest: usize) -> Look
    ensures { ((h : Hedge) (beyond : List ℕ) → Stands k.now from h beyond → rest ≡ from + length (body_words (head h)) → result ≡ look_of h) × (result ≡ look_at k.now from rest) }
{
    match classify(word(k, from)) {
        Kind::Term(x) => Look::Term(x, word(k, rest) == 0),
        Kind::Run(p) => Look::Run(p, word(k, rest) == 0),
        Kind::Symbol(f) => node_at(k, from, rest, Name::Symbol(f)),
        Kind::Function(f) => node_at(k, from, rest, Name::Blank(f)),
        _ => Look::Empty,
    }
}

// The hedge at a place as a side.
pub fn side_at(k: &[u16], from: usize) -> Side
    ensures { (result.from ≡ from) × ((h : Hedge) (beyond : List ℕ) → Stands k.now from h beyond → Sided k.now result h) × (result ≡ side_at k.now from) }
{
    let rest = element_end(k, from);
    let to = hedge_end(k, rest);
    let look = look_at(k, from, rest);
    Side {
        from,
        rest,
        to,
        look,
    }
}

// The equation at a place.
pub fn see(k: &[u16], at: usize) -> View
    requires { at < length k.now }
    ensures { ((before : Conj) (l r : Hedge) (behind : Conj) → LiteralAt k.now at before (eqn l r) behind → Sees k.now result before l r behind) × (result ≡ view_at k.now at) }
{
    let l = side_at(k, at + 1);
    let middle = l.to;
    let r = side_at(k, middle);
    let end = r.to;
    View {
        at,
        l,
        r,
        end,
        len: k.len(),
    }
}

// The membership at a place.
pub fn show_membership(k: &[u16], at: usize) -> Shape
    requires { at < length k.now }
    ensures { ((before : Conj) (h : Hedge) (R : Expr) (behind : Conj) → LiteralAt k.now at before (mem h R) behind → Shows k.now result before h R behind) × (result ≡ shape_at k.now at) }
{
    let h = side_at(k, at + 1);
    let expr = h.to;
    let first = classify(word(k, expr));
    let end = next_literal(k, at);
    Shape {
        at,
        h,
        expr,
        first,
        end,
        len: k.len(),
    }
}

// The same equation, seen from the other side.
pub fn swapped(v: View) -> View
    ensures { ((k : List ℕ) (before behind : Conj) (l r : Hedge) → Sees k v before l r behind → Sees k result before r l behind) × (result ≡ turned v) }
{
    let l = v.r;
    let r = v.l;
    View {
        at: v.at,
        l,
        r,
        end: v.end,
        len: v.len,
    }
}
