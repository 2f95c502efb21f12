// The linear form of M2: one recursion over an expression's parts that meets its monomials in their order. What a rest gets from outside is
// handed down: how many parts, how many words, and the words themselves at the end of a slice, the innermost part first, so that a rest is one
// part of that slice. The results are counted first, by a recursion that needs none of their words and goes as deep as an expression may, and then
// written, if all of them fit. Each recursion has one call for each part, and what is handed down is found before: a call's copies of what it lends
// stand in the frame of every level.
#![tactic(auto)]

mod adding;
mod chart;

ghost use Rattle.std.specs.Prelude.{◌≡◌, ◌≤◌, ◌<◌, ◌+◌, ◌*◌, length};
ghost use Rattle.language.specs.Limits.{desk};
ghost use Rattle.linear_form.specs.Charted.{ChartedFrom};
ghost use Rattle.language.specs.Trees.{Hedge, Expr, mem, Conj};
ghost use Rattle.plans.specs.Sizes.{monomial_words};
ghost use Rattle.taking.specs.Taking.{Took};
ghost use Rattle.views.specs.Standing.{LiteralAt};
ghost use Rattle.views.specs.Views.{MembershipAt};
ghost use Rattle.linear_form.specs.Rows.{Sized, Written, RoomFor, SomeMembership};
ghost use Rattle.linear_form.specs.Walks.{Widened, Enclosed, Handed, closes, joined, Tallies, Walks};

use adding::{Kept, Spot, add_row, count, keeping, kept_len, result_len};
use chart::{chart, expression_end};
use language::Refusal;
use language::limits::QUESTION;
use slices::copy;
use views::{Shape, show_membership};
use words::word;

// What the rests of an expression's monomials get from outside of it: how many parts, and how many words they have together.
#[derive(Clone, Copy)]
pub struct Outside {
    pub parts: usize,
    pub words: usize,
}

// Of an expression whose results were counted: whether it is nullable, and how many words the results take up to those of its monomials, if none of
// them is too long.
#[derive(Clone, Copy)]
pub struct Counted {
    pub null: bool,
    pub size: Option<usize>,
}

// Of an expression whose results were written: whether it is nullable, and the place after those of its monomials.
#[derive(Clone, Copy)]
pub struct Walked {
    pub null: bool,
    pub to: usize,
}

// A part more from outside, before the others, where there is room for its words.
fn widen(k: &[u16], from: usize, until: usize, o: Outside, rest: &mut [u16]) -> Outside
    requires { (from ≤ until) × (until ≤ length k.now) × (length k.now ≤ desk.question) × (o.parts ≤ desk.question) × (o.words ≤ desk.question * desk.question) }
    ensures { Widened k.now from until o rest.old rest.new result }
{
    let r = Outside {
        parts: o.parts + 1,
        words: o.words + (until - from),
    };
    let words = r.words;
    if rest.len() < words {
        return r;
    }
    copy(k, from, until, rest, rest.len() - words);
    r
}

// What the first part of a concatenation gets from outside: its second part too, unless that is eps.
fn enclose(k: &[u16], from: usize, until: usize, o: Outside, rest: &mut [u16]) -> Outside
    requires { (from ≤ until) × (until ≤ length k.now) × (length k.now ≤ desk.question) × (o.parts ≤ desk.question) × (o.words ≤ desk.question * desk.question) }
    ensures { Enclosed k.now from until o rest.old rest.new result }
{
    if word(k, from) == 7000 {
        return o;
    }
    widen(k, from, until, o, rest)
}

// What the first part gets from outside: of a star the star too, of a concatenation the second part, of a choice nothing more.
fn hand_down(
    k: &[u16],
    ends: &[u16],
    at: usize,
    mid: usize,
    o: Outside,
    rest: &mut [u16],
) -> Outside
    requires { (at < length k.now) × (at ≤ mid) × (mid ≤ length k.now) × (length k.now ≤ desk.question) × ChartedFrom 0 k.now ends.now × (o.parts ≤ desk.question) × (o.words ≤ desk.question * desk.question) }
    ensures { Handed k.now at mid o rest.old rest.new result }
{
    let x = k[at];
    if x == 7003 {
        return widen(k, at, mid, o, rest);
    }
    if x == 7001 {
        let end = expression_end(k, ends, mid);
        return enclose(k, mid, end, o, rest);
    }
    o
}

// Whether the second part adds nothing: that of a concatenation whose first is not nullable.
fn closed(x: u16, null: bool) -> bool
    ensures { result ≡ closes x null }
{
    if null { false } else { x == 7001 }
}

// Whether a concatenation or a choice is nullable, by its parts.
fn join(x: u16, a: bool, b: bool) -> bool
    ensures { result ≡ joined x a b }
{
    if x == 7001 {
        if a {
            return b;
        }
        return false;
    }
    if a { true } else { b }
}

// Passes the expression at a place, and counts the results of its monomials as it meets them, each of which keeps so many words.
fn tally(
    k: &[u16],
    ends: &[u16],
    kept: usize,
    at: usize,
    o: Outside,
    size: Option<usize>,
) -> Counted
    requires { (length k.now ≤ desk.question) × ChartedFrom 0 k.now ends.now × (kept ≤ 4 * desk.question + 3) × (o.parts ≤ at) × (o.words ≤ desk.question * at) }
    ensures { Tallies k.now kept at o size result }
{
    if k.len() <= at {
        return Counted { null: false, size };
    }
    let x = k[at];
    if x == 7000 {
        return Counted { null: true, size };
    }
    let mid = expression_end(k, ends, at + 1);
    if x < 7000 {
        let spot = Spot {
            place: at,
            past: mid,
            parts: o.parts,
            words: o.words,
        };
        let one = result_len(k, kept, spot);
        let more = count(size, one);
        return Counted {
            null: false,
            size: more,
        };
    }
    let mut none = [0; 1];
    let inner = hand_down(k, ends, at, mid, o, &mut none);
    let a = tally(k, ends, kept, at + 1, inner, size);
    let first = a.size;
    if x == 7003 {
        return Counted {
            null: true,
            size: first,
        };
    }
    let open = a.null;
    if closed(x, open) {
        return a;
    }
    let b = tally(k, ends, kept, mid, o, first);
    let null = join(x, open, b.null);
    let second = b.size;
    Counted { null, size: second }
}

// Passes the expression at a place, and writes the results of its monomials as it meets them.
fn walk(
    k: &[u16],
    ends: &[u16],
    s: Kept,
    at: usize,
    o: Outside,
    rest: &mut [u16],
    out: &mut [u16],
    to: usize,
) -> Walked
    requires { (length k.now ≤ desk.question) × ChartedFrom 0 k.now ends.now × (o.parts ≤ at) × (o.words ≤ desk.question * at) × (to ≤ length out.old) }
    ensures { Walks k.now s at o rest.old out.old to rest.new out.new result }
{
    if k.len() <= at {
        return Walked { null: false, to };
    }
    let x = k[at];
    if x == 7000 {
        return Walked { null: true, to };
    }
    let mid = expression_end(k, ends, at + 1);
    if x < 7000 {
        let spot = Spot {
            place: at,
            past: mid,
            parts: o.parts,
            words: o.words,
        };
        let end = add_row(k, s, spot, rest, out, to);
        return Walked {
            null: false,
            to: end,
        };
    }
    let inner = hand_down(k, ends, at, mid, o, rest);
    let a = walk(k, ends, s, at + 1, inner, rest, out, to);
    let first = a.to;
    if x == 7003 {
        return Walked {
            null: true,
            to: first,
        };
    }
    let open = a.null;
    if closed(x, open) {
        return a;
    }
    let b = walk(k, ends, s, mid, o, rest, out, first);
    let null = join(x, open, b.null);
    let second = b.to;
    Walked { null, to: second }
}

// How many words M2's results take, each in its frame, whatever their number; none where one of them is too long.
fn size_monomials(k: &[u16], s: Shape) -> Option<usize>
    requires k_len_bound { length k.now ≤ desk.question }
    requires membership_at { MembershipAt k.now s }
    ensures { Sized k.now s result }
{
    let t = keeping(s, 0);
    let mut ends = [0; QUESTION];
    chart(k, &mut ends);
    let kept = kept_len(k, t);
    let o = Outside { parts: 0, words: 0 };
    let w = tally(k, &ends, kept, s.expr, o, Some(0));
    w.size
}

// M2's results, each in its frame, all with the number of the conjunction that they come from.
fn write_monomials(k: &[u16], s: Shape, number: u16, out: &mut [u16], at: usize) -> usize
    requires k_len_bound { (length k.now ≤ desk.question) × (at ≤ length out.old) }
    requires room_for { RoomFor k.now s number out.old at }
    ensures { Written k.now s number out.old at out.new result }
{
    let t = keeping(s, number);
    let mut ends = [0; QUESTION];
    chart(k, &mut ends);
    let mut rest = [0; QUESTION];
    let o = Outside { parts: 0, words: 0 };
    let w = walk(k, &ends, t, s.expr, o, &mut rest, out, at);
    w.to
}

// The results of M2 at the membership at a place, right before `next`; the answer is the place where they begin.
pub fn step_monomials(
    k: &[u16],
    literal: usize,
    number: u16,
    out: &mut [u16],
    next: usize,
) -> Result<usize, Refusal>
    requires k_len_bound { (length k.now ≤ desk.question) × (literal < length k.now) × (next ≤ length out.old) × (next ≤ desk.room) }
    requires some_membership { SomeMembership k.now literal }
    ensures { (before : Conj) (h : Hedge) (R : Expr) (behind : Conj) → LiteralAt k.now literal before (mem h R) behind → Took number (monomial_words before h R behind) out.old next result out.new }
{
    let s = show_membership(k, literal);
    let n = size_monomials(k, s).ok_or(Refusal::LongResult)?;
    if next < n {
        return Err(Refusal::LongWaiting);
    }
    let at = next - n;
    write_monomials(k, s, number, out, at);
    Ok(at)
}
