// The orders of elements, by their numbers: how many there are, and how many words the elements are in each. What a number decides is said here; `in_order`
// and `renaming` write it.
#![tactic(auto)]

ghost use Rattle.std.specs.Prelude.{◌≡◌, length};
ghost use Rattle.orders.specs.Orders.{ordered, some_orders};

use slices::part_len;
use spans::element_end;

// How many orders n elements have, counted up to those of eight.
pub fn count_orders(n: usize) -> usize
    ensures { result ≡ some_orders n }
{
    match n {
        0 => 1,
        1 => 1,
        2 => 2,
        3 => 6,
        4 => 24,
        5 => 120,
        6 => 720,
        7 => 5040,
        _ => 40320,
    }
}

// How many words the n elements from a place on are, in every order.
pub fn order_len(k: &[u16], from: usize, n: usize) -> usize
    ensures { result ≡ length (ordered k.now from n 0) }
{
    let mut end = from;
    for _ in 0..n {
        end = element_end(k, end);
    }
    part_len(k, from, end)
}
