// What the fold looks for in a conjunction's words: the earliest literal that stands there again, and where it stands again first.
#![tactic(auto)]

ghost use Rattle.std.specs.Prelude.{ℕ, ◌+◌, ◌-◌, ◌*◌, ◌≤◌, ◌<◌, ◌≡◌, length, get_or};
ghost use Rattle.std.proofs.Math.Seq.{slice};
ghost use Rattle.language.specs.Limits.{desk};
ghost use Rattle.language.specs.Trees.{Literal, Conj};
ghost use Rattle.language.specs.Writing.{literal_words, conj_words};
ghost use Rattle.language.specs.Fine.{fine_conj};
ghost use Rattle.views.specs.Standing.{LiteralAt, SomeLiteral, Conjunction};
ghost use Rattle.folding.specs.Twice.{until_same, first_twice};
ghost use Rattle.folding.specs.Chains.{bucket, Falls, Sought, Noted};

use language::limits::QUESTION;
use words::{next_literal, same_part};

// The chains of the table: a literal's words say in which chain its place is.
const CHAINS: usize = 1024;

// No literal has fewer words: its mark and at least one word for each of its two parts. So at most one literal begins in each row of three words, and
// a place divided by three is a number for the literal there.
const SHORTEST: usize = 3;

const LITERALS: usize = QUESTION / SHORTEST;

// The chain of a literal's words. The number is kept within 32 bits, so that nothing wraps; its upper bits depend on every word but the last, which is
// the same in all literals of a kind.
fn chain_of(k: &[u16], from: usize, to: usize) -> usize
    requires { to ≤ length k.now }
    ensures { (result ≡ bucket (slice from to k.now)) × (result < 1024) }
{
    let mut s: usize = 0;
    for i in from..to {
        s = (s * 1664525 + usize::from(k[i])) % 4294967296;
    }
    s / 4194304
}

// The place in a chain where the words of a literal stand again, or the length. No literal's words begin another's: so many words as it has decide.
fn seek(k: &[u16], next: &[u16; LITERALS], first: usize, at: usize, end: usize) -> usize
    requires { (at ≤ end) × (end ≤ length k.now) × (length k.now ≤ desk.question) × (first ≤ at - 2) × ((s : ℕ) → get_or next.now s 0 ≤ 3 * s) }
    ensures { Sought k.now next.now first at end result }
{
    let len = end - at;
    let mut p = first;
    while p != 0 {
        let q = p - 1;
        if same_part(k, at, end, q, q + len) {
            return q;
        }
        p = usize::from(next[q / SHORTEST]);
    }
    k.len()
}

// The earlier place of the literal at a place; where there is none, its place becomes the head of its chain, and the length is returned.
fn note(
    k: &[u16],
    heads: &mut [u16; CHAINS],
    next: &mut [u16; LITERALS],
    at: usize,
    end: usize,
) -> usize
    requires { (at + 3 ≤ end) × (end ≤ length k.now) × (length k.now ≤ desk.question) × Falls heads.old next.old at }
    ensures { Noted k.now heads.old next.old at end result heads.new next.new }
{
    let h = chain_of(k, at, end);
    let first = heads[h];
    let p = seek(k, next, usize::from(first), at, end);
    if p < k.len() {
        return p;
    }
    next[at / SHORTEST] = first;
    heads[h] = (at + 1) as u16;
    p
}

// The place of the earliest literal that stands there again; the length, where there is none.
pub fn first_twice(k: &[u16]) -> usize
    requires k_len_bound { length k.now ≤ desk.question }
    requires conjunction { Conjunction k.now }
    ensures { (c : Conj) → fine_conj desk c → k.now ≡ conj_words c → result ≡ first_twice c }
{
    // a place is kept as the number after it, so that 0 ends a chain
    let mut heads = [0; CHAINS];
    let mut next = [0; LITERALS];
    let mut best = k.len();
    let mut i = 0;
    while i < k.len() {
        let end = next_literal(k, i);
        let p = note(k, &mut heads, &mut next, i, end);
        best = best.min(p);
        i = end;
    }
    best
}

// The place of the first literal behind the one at a place that has the same words; the length, where there is none.
pub fn later_equal(k: &[u16], at: usize) -> usize
    requires at_in_bounds { at < length k.now }
    requires some_literal { SomeLiteral k.now at }
    ensures { (before : Conj) (l : Literal) (behind : Conj) → LiteralAt k.now at before l behind → result ≡ at + length (literal_words l) + until_same l behind }
{
    let end = next_literal(k, at);
    let mut j = end;
    while j < k.len() {
        let after = next_literal(k, j);
        if same_part(k, at, end, j, after) {
            return j;
        }
        j = after;
    }
    j
}
