// The literals of a conjunction by their numbers, from 0, as a trail names them.
#![tactic(auto)]

ghost use Rattle.std.specs.Prelude.{◌≤◌, ◌<◌, ◌≡◌, length};
ghost use Rattle.language.specs.Limits.{desk};
ghost use Rattle.language.specs.Trees.{Literal, Conj};
ghost use Rattle.language.specs.Writing.{conj_words};
ghost use Rattle.language.specs.Fine.{fine_conj};
ghost use Rattle.views.specs.Standing.{LiteralAt, SomeLiteral, Conjunction};
ghost use Rattle.literals.specs.Places.{words_before};

use words::next_literal;

// The place of the literal of that number; the length, where there is none.
pub fn literal_place(k: &[u16], number: usize) -> usize
    requires { Conjunction k.now }
    ensures { (c : Conj) → fine_conj desk c → k.now ≡ conj_words c → result ≡ words_before number c }
{
    // kept: the literal that is there and none each have a way out of their own, so that a wrong answer of either can be tried
    let mut i = 0;
    let mut left = number;
    while i < k.len() {
        if left == 0 {
            return i;
        }
        left -= 1;
        i = next_literal(k, i);
    }
    i
}

// The number of the literal at a place: how many stand before it.
pub fn literal_number(k: &[u16], at: usize) -> usize
    requires at_in_bounds { at < length k.now }
    requires some_literal { SomeLiteral k.now at }
    ensures { (result ≤ at) × ((before : Conj) (l : Literal) (behind : Conj) → LiteralAt k.now at before l behind → result ≡ length before) }
{
    // kept: the walk goes on where next_literal says, so no range gives its places; n counts the literals passed
    let mut n = 0;
    let mut i = 0;
    while i < at {
        i = next_literal(k, i);
        n += 1;
    }
    n
}
