// A side: a hedge's elements, in brackets unless it is one element.
ghost use Rattle.std.specs.Prelude.{◌≤◌, ◌≡◌, length};
ghost use Rattle.language.specs.Between.{between};
ghost use Rattle.write_text.specs.Laid.{Laid};
ghost use Rattle.write_text.specs.Pieces.{after_of, flat, unless};
ghost use Rattle.write_text.specs.Standing.{OneAt, Sided};

use crate::Wrote;
use crate::bytes::{put, put_word};
use trees::read_hedge;

// What stands before the next word: a functor, or an element.
fn after(x: u16) -> u8
    ensures { result ≡ after_of x }
{
    if x < 3000 {
        return 2;
    }
    1
}

// The words of elements, each by what stands before it.
fn put_elements(w: &[u16], from: usize, end: usize, out: &mut [u8], stop: usize, to: usize) -> usize
    requires { (from ≤ end) × (end ≤ length w.now) }
    ensures { Laid stop out.old to (flat 0 (between from end w.now)) out.new result }
{
    let mut n = to;
    let mut s = 0;
    for i in from..end {
        let x = w[i];
        n = put_word(out, stop, n, s, x);
        s = after(x);
    }
    n
}

// Whether the hedge at a place is one element; `last` is the place of its 0.
fn is_one(w: &[u16], at: usize, last: usize) -> bool
    ensures { OneAt w.now at last result }
{
    if w.len() <= at {
        return false;
    }
    if at == last {
        return false;
    }
    if w[at] < 3000 {
        return at + 1 == last;
    }
    match read_hedge(w, at + 1) {
        Ok(m) => m == last,
        Err(_) => false,
    }
}

fn bracket(one: bool, x: u8) -> u8
    ensures { result ≡ unless one x }
{
    if one {
        return 0;
    }
    x
}

// Writes the side at a place.
pub(crate) fn put_side(w: &[u16], at: usize, out: &mut [u8], stop: usize, to: usize) -> Wrote
    ensures { Sided stop w.now at out.old to out.new result }
{
    match read_hedge(w, at) {
        Ok(e) => {
            let last = e - 1;
            let one = is_one(w, at, last);
            let n = put(out, stop, to, bracket(one, 40));
            let m = put_elements(w, at, last, out, stop, n);
            let k = put(out, stop, m, bracket(one, 41));
            Wrote { end: e, to: k }
        }
        Err(_) => Wrote { end: at, to },
    }
}
