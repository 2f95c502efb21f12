// Bytes of a text, written one after another below a place at which it stops. A byte that is 0 is none.
ghost use Rattle.std.specs.Prelude.{◌+◌, ◌/◌, ◌%◌, ◌<◌, ◌≡◌};
ghost use Rattle.write_text.specs.Laid.{Laid};
ghost use Rattle.write_text.specs.Pieces.{given, four, hundreds_of, tens_of, first_of, second_of, closing_of, mark_of, letter_in, word_text};

// One byte: it is stored where the slice reaches, and counted in any case.
pub(crate) fn put(out: &mut [u8], stop: usize, at: usize, x: u8) -> usize
    ensures { Laid stop out.old at (given x) out.new result }
{
    if x == 0 {
        return at;
    }
    if stop <= at {
        return at;
    }
    if at < out.len() {
        out[at] = x;
        return at + 1;
    }
    at + 1
}

pub(crate) fn put_four(out: &mut [u8], stop: usize, at: usize, a: u8, b: u8, c: u8, d: u8) -> usize
    ensures { Laid stop out.old at (four a b c d) out.new result }
{
    let i = put(out, stop, at, a);
    let j = put(out, stop, i, b);
    let k = put(out, stop, j, c);
    put(out, stop, k, d)
}

// ---- what a word of a hedge gives

fn hundreds(n: u16) -> u8
    requires { n < 1000 }
    ensures { result ≡ hundreds_of n }
{
    if n < 100 {
        return 0;
    }
    (48 + n / 10 / 10) as u8
}

fn tens(n: u16) -> u8
    ensures { result ≡ tens_of n }
{
    if n < 10 {
        return 0;
    }
    (48 + n / 10 % 10) as u8
}

fn ones(n: u16) -> u8
    ensures { result ≡ 48 + n % 10 }
{
    (48 + n % 10) as u8
}

pub(crate) fn first(s: u8) -> u8
    ensures { result ≡ first_of s }
{
    if s == 0 {
        return 0;
    }
    if s == 1 {
        return 40;
    }
    44
}

pub(crate) fn second(s: u8) -> u8
    ensures { result ≡ second_of s }
{
    if s == 2 {
        return 32;
    }
    0
}

fn closing(s: u8) -> u8
    ensures { result ≡ closing_of s }
{
    if s == 1 {
        return 0;
    }
    41
}

fn mark(x: u16) -> u8
    ensures { result ≡ mark_of x }
{
    if x < 2000 {
        return 63;
    }
    if x < 3000 {
        return 42;
    }
    if x < 4000 {
        return 0;
    }
    37
}

fn letter(x: u16) -> u8
    ensures { result ≡ letter_in x }
{
    if x < 2000 {
        return 120;
    }
    if x < 3000 {
        return 112;
    }
    if x < 4000 {
        return 97;
    }
    88
}

// A word of a hedge, by what stands before it: 0 nothing, 1 a functor, 2 an element.
pub(crate) fn put_word(out: &mut [u8], stop: usize, at: usize, s: u8, x: u16) -> usize
    ensures { Laid stop out.old at (word_text s x) out.new result }
{
    if x == 0 {
        return put(out, stop, at, closing(s));
    }
    let n = x % 1000;
    let m = put_four(out, stop, at, first(s), second(s), mark(x), letter(x));
    put_four(out, stop, m, hundreds(n), tens(n), ones(n), 0)
}
