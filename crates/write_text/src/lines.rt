// A literal, a line, all lines.
ghost use Rattle.std.specs.Prelude.{◌<◌, length};
ghost use Rattle.write_text.specs.Standing.{Tested, Lined, IsQuestion, AllLined};

use crate::Wrote;
use crate::bytes::{first, put, put_four, second};
use crate::shapes::put_shape;
use crate::sides::put_side;
use language::wide;

// Writes the literal at a place.
fn put_literal(w: &[u16], at: usize, out: &mut [u8], stop: usize, to: usize) -> Wrote
    requires { at < length w.now }
    ensures { Tested stop w.now at out.old to out.new result }
{
    let a = put_side(w, at + 1, out, stop, to);
    let mid = a.end;
    let n = a.to;
    if w[at] == 5000 {
        let m = put_four(out, stop, n, 32, 61, 32, 0);
        return put_side(w, mid, out, stop, m);
    }
    let m = put_four(out, stop, n, 32, 105, 110, 32);
    put_shape(w, mid, 1, out, stop, m)
}

// Writes a conjunction, which is all of these words, and the end of its line.
fn put_line(w: &[u16], out: &mut [u8], stop: usize, to: usize) -> usize
    ensures { Lined stop w.now out.old to out.new result }
{
    if w.len() == 0 {
        return put_four(out, stop, to, 40, 41, 10, 0);
    }
    let mut i = 0;
    let mut n = to;
    let mut s = 0;
    while i < w.len() {
        let m = put_four(out, stop, n, first(s), second(s), 0, 0);
        let l = put_literal(w, i, out, stop, m);
        i = l.end;
        n = l.to;
        s = 2;
    }
    put(out, stop, n, 10)
}

// Writes all lines of a question, and counts their bytes up to `stop`.
pub(crate) fn put_lines(w: &[u16], out: &mut [u8], stop: usize) -> usize
    requires { IsQuestion w.now }
    ensures { AllLined stop w.now out.old out.new result }
{
    let many = wide(w[4]);
    let mut n = 0;
    for i in 0..many {
        let from = wide(w[5 + i]);
        let to = wide(w[6 + i]);
        n = put_line(&w[from..to], out, stop, n);
    }
    n
}
