// One result: its length, and its words in their frame.
ghost use Rattle.std.specs.Prelude.{◌+◌, ◌≤◌, ◌<◌, ◌≡◌, length};
ghost use Rattle.std.proofs.Math.Seq.{slice};
ghost use Rattle.frames.specs.Frames.{in_frame};
ghost use Rattle.language.specs.Limits.{desk};
ghost use Rattle.orders.specs.Orders.{plenty};
ghost use Rattle.plans.specs.Results.{piece_words, numbered, made};
ghost use Rattle.slices.specs.Written.{Wrote};
ghost use Rattle.results.specs.Marked.{Marked, bare};

use super::emptying::empty_each;
use super::replacing::{Marks, Swap, note, put, put_len};
use frames::{FRAME, write_frame};
use in_order::write_order;
use orders::order_len;
use plans::{Piece, Recipe};
use renaming::write_named;
use slices::{copy, part_len};

fn piece_len(k: &[u16], s: Swap, cut: usize, m: Marks, p: Piece) -> usize
    requires { Marked (slice s.old s.until k.now) m × (length k.now ≤ desk.question) }
    ensures { result ≡ length (piece_words k.now (bare s) cut 0 p) }
{
    match p {
        Piece::Word(_) => 1,
        Piece::Copy(from, to) => part_len(k, from, to),
        Piece::Put(from, to) => put_len(k, s, cut, m, from, to),
        Piece::ToCut(from) => part_len(k, from, cut),
        Piece::PutFromCut(to) => put_len(k, s, cut, m, cut, to),
        Piece::Each(from, to) => 4 * part_len(k, from, to),
        Piece::Ordered(from, n) => order_len(k, from, n),
        Piece::Named(from, to) => part_len(k, from, to),
    }
}

fn write_piece(
    k: &[u16],
    s: Swap,
    cut: usize,
    nth: usize,
    m: Marks,
    p: Piece,
    out: &mut [u16],
    at: usize,
) -> usize
    requires { Marked (slice s.old s.until k.now) m × (at + length (piece_words k.now (bare s) cut nth p) ≤ length out.old) × (nth < plenty) }
    ensures { Wrote out.old at (piece_words k.now (bare s) cut nth p) out.new result }
{
    match p {
        Piece::Word(x) => {
            out[at] = x;
            at + 1
        }
        Piece::Copy(from, to) => copy(k, from, to, out, at),
        Piece::Put(from, to) => put(k, s, cut, m, from, to, out, at),
        Piece::ToCut(from) => copy(k, from, cut, out, at),
        Piece::PutFromCut(to) => put(k, s, cut, m, cut, to, out, at),
        Piece::Each(from, to) => empty_each(k, from, to, out, at),
        Piece::Ordered(from, n) => write_order(k, from, n, nth, out, at),
        Piece::Named(from, to) => write_named(k, from, to, s.old, nth, out, at),
    }
}

// How long a result is.
pub(crate) fn made_len(k: &[u16], r: Recipe, cut: usize) -> usize
    requires { length k.now ≤ desk.question }
    ensures { result ≡ length (made k.now r cut) }
{
    let slots = r.slots;
    let s = Swap {
        old: r.old,
        until: r.until,
        new: r.new,
    };
    let m = note(k, s.old, s.until);
    let mut n: usize = 0;
    for slot in &slots {
        n += piece_len(k, s, cut, m, slot.piece);
    }
    n
}

// The words of the result of that number.
pub(crate) fn write_made(
    k: &[u16],
    r: Recipe,
    cut: usize,
    nth: usize,
    out: &mut [u16],
    at: usize,
) -> usize
    requires { (at + length (numbered k.now r cut nth) ≤ length out.old) × (nth < plenty) }
    ensures { Wrote out.old at (numbered k.now r cut nth) out.new result }
{
    let slots = r.slots;
    let s = Swap {
        old: r.old,
        until: r.until,
        new: r.new,
    };
    let m = note(k, s.old, s.until);
    let mut e = at;
    for slot in &slots {
        e = write_piece(k, s, cut, nth, m, slot.piece, out, e);
    }
    e
}

// A result in its frame; its length is known once it stands.
pub(crate) fn write_framed(
    k: &[u16],
    r: Recipe,
    cut: usize,
    nth: usize,
    number: u16,
    out: &mut [u16],
    at: usize,
) -> usize
    requires { (length (numbered k.now r cut nth) ≤ desk.question) × (at + length (in_frame number (numbered k.now r cut nth)) ≤ length out.old) × (nth < plenty) }
    ensures { Wrote out.old at (in_frame number (numbered k.now r cut nth)) out.new result }
{
    let start = at + FRAME;
    let e = write_made(k, r, cut, nth, out, start);
    write_frame(out, at, e - start, number);
    e
}
