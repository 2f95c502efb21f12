// Elements copied in the order of a number. The order is found from its number alone, digit by digit, so that nothing is kept between results.
#![tactic(auto)]

ghost use Rattle.std.specs.Prelude.{◌+◌, ◌≤◌, ◌<◌, ◌≡◌, length};
ghost use Rattle.slices.specs.Written.{Wrote};
ghost use Rattle.words.specs.Spans.{places};
ghost use Rattle.orders.specs.Orders.{drop_at, in_order, elements_at, ordered, plenty};
ghost use Rattle.orders.specs.Agreeing.{Agree};

use orders::count_orders;
use slices::copy;
use spans::element_end;

// The places of eight elements at most.
#[derive(Clone, Copy)]
struct Places {
    at: [usize; 8],
}

// The places of n elements.
fn places_of(k: &[u16], from: usize, n: usize) -> Places
    requires { n ≤ 8 }
    ensures { (length result.at ≡ 8) × Agree n result.at (places n k.now from) }
{
    let mut at = [0; 8];
    let mut p = from;
    for i in 0..n {
        at[i] = p;
        p = element_end(k, p);
    }
    Places { at }
}

// Without the d-th: those behind it move up.
fn without(ps: Places, d: usize) -> Places
    requires { length ps.at ≡ 8 }
    ensures { (length result.at ≡ 8) × Agree 7 result.at (drop_at d ps.at) }
{
    let mut at = ps.at;
    for i in d..7 {
        at[i] = at[i + 1];
    }
    Places { at }
}

// n elements, eight at most, in their order of that number.
fn write_few(k: &[u16], all: Places, n: usize, number: usize, out: &mut [u16], at: usize) -> usize
    requires { (length all.at ≡ 8) × (n ≤ 8) × (at + length (elements_at k.now (in_order n number all.at)) ≤ length out.old) }
    ensures { Wrote out.old at (elements_at k.now (in_order n number all.at)) out.new result }
{
    let mut ps = all;
    let mut j = number;
    let mut e = at;
    for rest in (0..n).rev() {
        let block = count_orders(rest);
        let d = j / block % (rest + 1);
        let row = ps.at;
        let p = row[d];
        let end = element_end(k, p);
        e = copy(k, p, end, out, e);
        ps = without(ps, d);
        j = j % block;
    }
    e
}

// The n elements from a place on in their order of that number. Such a number leaves all but the last eight where they are.
pub fn write_order(
    k: &[u16],
    from: usize,
    n: usize,
    number: usize,
    out: &mut [u16],
    at: usize,
) -> usize
    requires { (number < plenty) × (at + length (ordered k.now from n number) ≤ length out.old) }
    ensures { Wrote out.old at (ordered k.now from n number) out.new result }
{
    let mut p = from;
    let mut e = at;
    for _ in 8..n {
        let end = element_end(k, p);
        e = copy(k, p, end, out, e);
        p = end;
    }
    let m = n.min(8);
    let few = places_of(k, p, m);
    write_few(k, few, m, number, out, e)
}
