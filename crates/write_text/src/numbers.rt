// Whether a question is numbered and counted as a text's would be: each number an old one or the next, and what is declared is what appears.
ghost use Rattle.std.specs.Prelude.{◌≤◌, ◌≡◌, drop};
ghost use Rattle.texts.specs.Numbering.{in_order};
ghost use Rattle.write_text.specs.Numbers.{step_of, count_after, numbers_in, counted_as};
ghost use Rattle.write_text.specs.Standing.{IsQuestion, Numbered};

use language::wide;

// The count after a number, or 1,001 where it is out of order.
fn after_number(n: u16, m: u16) -> u16
    requires { n ≤ 1000 }
    ensures { result ≡ count_after n m }
{
    if m < n {
        return n;
    }
    if m == n {
        return n + 1;
    }
    1001
}

// The count after a word: only those of the class that begins at `base` count.
fn after_word(base: u16, n: u16, x: u16) -> u16
    requires { (n ≤ 1000) × (base ≤ 4000) }
    ensures { result ≡ step_of base n x }
{
    if x < base {
        return n;
    }
    if base + 1000 <= x {
        return n;
    }
    after_number(n, x - base)
}

// Whether those of a class are numbered in order from 0 on, and are as many as declared.
fn are_counted(w: &[u16], from: usize, base: u16, least: u16, declared: u16) -> bool
    requires { base ≤ 4000 }
    ensures { result ≡ counted_as least declared (in_order 0 (numbers_in base (drop from w.now))) }
{
    let mut n = 0;
    for i in from..w.len() {
        let m = after_word(base, n, w[i]);
        if 1000 < m {
            return false;
        }
        n = m;
    }
    if n < least {
        return least == declared;
    }
    n == declared
}

pub(crate) fn is_numbered(w: &[u16]) -> bool
    requires { IsQuestion w.now }
    ensures { Numbered w.now result }
{
    let from = wide(w[4]) + 6;
    if w[0] / 256 != 0 {
        return false;
    }
    if !are_counted(w, from, 3000, 1, w[0] % 256) {
        return false;
    }
    if !are_counted(w, from, 1000, 0, w[1]) {
        return false;
    }
    if !are_counted(w, from, 2000, 0, w[2]) {
        return false;
    }
    are_counted(w, from, 4000, 0, w[3])
}
