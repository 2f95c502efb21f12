// A result of M2 from a monomial: how long it is, and writing it in its frame.
ghost use Rattle.std.specs.Prelude.{◌≡◌, [], ◌∷◌, ◌++◌, ◌≤◌, ◌<◌, ◌+◌, ◌-◌, ◌*◌, length, drop};
ghost use Rattle.frames.specs.Frames.{frame, frame_of};
ghost use Rattle.language.specs.Limits.{desk};
ghost use Rattle.slices.specs.Written.{Wrote};
ghost use Rattle.monomials.specs.Loose.{opening};
ghost use Rattle.linear_form.specs.Rows.{kept_of, front_words, kept_length, length_by, result_length, result_words, Bounded, counted, Rowed};

use frames::{FRAME, write_frame};
use language::limits::QUESTION;
use plans::grow;
use slices::{copy, part_len};
use views::Shape;

// What a result keeps of the conjunction: the words up to `at`, of the literal its hedge's first element and what follows it, the words
// from `end` on, and the number of its alternative. It is smaller than the literal's shape, since each level of the recursion holds it.
#[derive(Clone, Copy)]
pub struct Kept {
    pub at: usize,
    pub from: usize,
    pub rest: usize,
    pub to: usize,
    pub end: usize,
    pub len: usize,
    pub number: u16,
}

// A monomial f(R1), R2: the part of f(R1), how many parts R2 has, and how many words they have together.
#[derive(Clone, Copy)]
pub struct Spot {
    pub place: usize,
    pub past: usize,
    pub parts: usize,
    pub words: usize,
}

pub(crate) fn keeping(s: Shape, number: u16) -> Kept
    ensures { result ≡ kept_of s number }
{
    let h = s.h;
    Kept {
        at: s.at,
        from: h.from,
        rest: h.rest,
        to: h.to,
        end: s.end,
        len: s.len,
        number,
    }
}

// How many words every result keeps of the conjunction, those between the parts among them.
pub(crate) fn kept_len(k: &[u16], s: Kept) -> usize
    requires { length k.now ≤ desk.question }
    ensures { result ≡ kept_length k.now s }
{
    let a = part_len(k, 0, s.at);
    let b = part_len(k, s.from, s.rest);
    let d = part_len(k, s.rest, s.to);
    let c = part_len(k, s.end, s.len);
    a + b + d + c + 3
}

// How many words stand before the parts of a rest.
fn opening_len(parts: usize) -> usize
    ensures { result ≡ length (opening parts) }
{
    if parts == 0 { 1 } else { parts - 1 }
}

// How long a result is that keeps so many words.
pub(crate) fn result_len(k: &[u16], kept: usize, p: Spot) -> usize
    requires { (length k.now ≤ desk.question) × (kept ≤ 4 * desk.question + 3) × Bounded p }
    ensures { result ≡ length_by k.now kept p }
{
    let a = part_len(k, p.place, p.past);
    let b = opening_len(p.parts);
    kept + a + (b + p.words)
}

// A result more of so many words. There is no size where a result is too long.
pub(crate) fn count(size: Option<usize>, one: usize) -> Option<usize>
    ensures { result ≡ counted size one }
{
    let n = size?;
    if QUESTION < one {
        return None;
    }
    Some(grow(n, one))
}

// What stands before the parts of a rest.
fn open_rest(out: &mut [u16], at: usize, parts: usize) -> usize
    requires { at + length (opening parts) ≤ length out.old }
    ensures { Wrote out.old at (opening parts) out.new result }
{
    if parts == 0 {
        out[at] = 7000;
        return at + 1;
    }
    let end = at + (parts - 1);
    out[at..end].fill(7001);
    end
}

// One word; the answer is the place after it.
fn put(out: &mut [u16], at: usize, x: u16) -> usize
    requires { at < length out.old }
    ensures { Wrote out.old at (x ∷ []) out.new result }
{
    out[at] = x;
    at + 1
}

// What stands before the rest in a result. It is written part by part and not by a recipe, which would stand in each frame of the recursion.
fn write_front(k: &[u16], s: Kept, p: Spot, out: &mut [u16], at: usize) -> usize
    requires { at + length (front_words k.now s p) ≤ length out.old }
    ensures { Wrote out.old at (front_words k.now s p) out.new result }
{
    let a = copy(k, 0, s.at, out, at);
    let b = put(out, a, 6000);
    let c = copy(k, s.from, s.rest, out, b);
    let d = put(out, c, 0);
    let e = copy(k, p.place, p.past, out, d);
    let f = put(out, e, 6000);
    copy(k, s.rest, s.to, out, f)
}

// A result in its frame; the parts of its rest are the last words of `rest`.
fn write_row(
    k: &[u16],
    s: Kept,
    p: Spot,
    one: usize,
    rest: &[u16],
    out: &mut [u16],
    at: usize,
) -> usize
    requires { (p.words ≤ length rest.now) × (one ≡ result_length k.now s p) × (one ≤ desk.question) × (at + frame + one ≤ length out.old) }
    ensures { Wrote out.old at (frame_of (result_length k.now s p) s.number ++ result_words k.now s p (drop (length rest.now - p.words) rest.now)) out.new result }
{
    write_frame(out, at, one, s.number);
    let a = write_front(k, s, p, out, at + FRAME);
    let b = open_rest(out, a, p.parts);
    let words = p.words;
    let e = copy(rest, rest.len() - words, rest.len(), out, b);
    copy(k, s.end, s.len, out, e)
}

// A result more, written where it is not too long and has room; the answer is the place after it.
pub(crate) fn add_row(
    k: &[u16],
    s: Kept,
    p: Spot,
    rest: &[u16],
    out: &mut [u16],
    to: usize,
) -> usize
    requires { (length k.now ≤ desk.question) × Bounded p × (to ≤ length out.old) }
    ensures { Rowed k.now s p rest.now out.old to out.new result }
{
    let kept = kept_len(k, s);
    let one = result_len(k, kept, p);
    if QUESTION < one {
        return to;
    }
    if rest.len() < p.words {
        return to;
    }
    if out.len() - to < one + FRAME {
        return to;
    }
    write_row(k, s, p, one, rest, out, to)
}
