// An expression, by recursion over its parts, with the brackets that its place asks for: 0 before a star, 1 in a choice, 2 in a list, 3 under a symbol.
ghost use Rattle.std.specs.Prelude.{◌≡◌};
ghost use Rattle.write_text.specs.Laid.{Laid};
ghost use Rattle.write_text.specs.Pieces.{opens, brace_of, head_piece, first_in, second_in, between_piece, star_of, is_two, elsewhere};
ghost use Rattle.write_text.specs.Standing.{Shaped};

use crate::Wrote;
use crate::bytes::{put, put_four, put_word};

fn is_open(t: u8, x: u16) -> bool
    ensures { result ≡ opens t x }
{
    if t == 3 {
        return true;
    }
    if x == 7001 {
        return t != 2;
    }
    if x == 7002 {
        return t == 0;
    }
    false
}

// A bracket, if its place asks for one.
fn brace(t: u8, x: u16, b: u8) -> u8
    ensures { result ≡ brace_of t x b }
{
    if is_open(t, x) {
        return b;
    }
    0
}

fn unless_under(t: u8, b: u8) -> u8
    ensures { result ≡ elsewhere t b }
{
    if t == 3 {
        return 0;
    }
    b
}

fn first_place(x: u16) -> u8
    ensures { result ≡ first_in x }
{
    if x < 7000 {
        return 3;
    }
    if x == 7001 {
        return 1;
    }
    0
}

fn second_place(x: u16) -> u8
    ensures { result ≡ second_in x }
{
    if x == 7001 {
        return 2;
    }
    1
}

fn is_two(x: u16) -> bool
    ensures { result ≡ is_two x }
{
    if x == 7001 {
        return true;
    }
    x == 7002
}

fn star(x: u16) -> u8
    ensures { result ≡ star_of x }
{
    if x == 7003 {
        return 42;
    }
    0
}

// What stands before the first part: a bracket, a symbol.
fn put_head(out: &mut [u8], stop: usize, at: usize, t: u8, x: u16) -> usize
    ensures { Laid stop out.old at (head_piece t x) out.new result }
{
    let n = put(out, stop, at, brace(t, x, 40));
    if x < 7000 {
        return put_word(out, stop, n, 0, x);
    }
    n
}

fn put_between(out: &mut [u8], stop: usize, at: usize, x: u16) -> usize
    ensures { Laid stop out.old at (between_piece x) out.new result }
{
    if x == 7001 {
        return put_four(out, stop, at, 44, 32, 0, 0);
    }
    put_four(out, stop, at, 32, 43, 32, 0)
}

// Writes the expression at a place.
pub(crate) fn put_shape(
    w: &[u16],
    at: usize,
    t: u8,
    out: &mut [u8],
    stop: usize,
    to: usize,
) -> Wrote
    ensures { Shaped stop w.now at t out.old to out.new result }
{
    if w.len() <= at {
        return Wrote { end: at, to };
    }
    let x = w[at];
    if x == 7000 {
        let n = put_four(
            out,
            stop,
            to,
            unless_under(t, 40),
            unless_under(t, 41),
            0,
            0,
        );
        return Wrote { end: at + 1, to: n };
    }
    let n = put_head(out, stop, to, t, x);
    let a = put_shape(w, at + 1, first_place(x), out, stop, n);
    let mid = a.end;
    let done = a.to;
    if is_two(x) {
        let m = put_between(out, stop, done, x);
        let b = put_shape(w, mid, second_place(x), out, stop, m);
        let k = put(out, stop, b.to, brace(t, x, 41));
        return Wrote { end: b.end, to: k };
    }
    let m = put_four(out, stop, done, star(x), brace(t, x, 41), 0, 0);
    Wrote { end: mid, to: m }
}
