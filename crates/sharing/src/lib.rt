// What two hedges in a conjunction's words share: the first element, earliest in the left one, then in the right one.
#![tactic(auto)]

ghost use Rattle.std.specs.Prelude.{◌≤◌, ◌≡◌, length};
ghost use Rattle.std.proofs.Math.Seq.{slice};
ghost use Rattle.words.specs.Places.{same_list};
ghost use Rattle.sharing.specs.Shared.{equal_from, first_shared};

use spans::element_end;
use words::{same_part, word};

// Where a shared element stands: from `left` to `after`, and again from `right` to `behind`.
#[derive(Clone, Copy)]
pub struct Spots {
    pub left: usize,
    pub after: usize,
    pub right: usize,
    pub behind: usize,
}

// Whether two parts are the same words. Most are told apart by their lengths.
fn same_element(k: &[u16], from: usize, to: usize, start: usize, end: usize) -> bool
    requires { (from ≤ to) × (to ≤ length k.now) × (start ≤ end) × (end ≤ length k.now) }
    ensures { result ≡ same_list (slice from to k.now) (slice start end k.now) }
{
    if to - from != end - start {
        return false;
    }
    same_part(k, from, to, start, end)
}

// The place of the first element of the hedge at a place that has the same words as a part; the length, where none has.
fn equal_element(k: &[u16], from: usize, to: usize, at: usize) -> usize
    requires { (from ≤ to) × (to ≤ length k.now) }
    ensures { result ≡ equal_from (length k.now) k.now (slice from to k.now) at }
{
    let mut i = at;
    let mut x = word(k, at);
    while x != 0 {
        let e = element_end(k, i);
        if same_element(k, from, to, i, e) {
            return i;
        }
        i = e;
        x = word(k, i);
    }
    k.len()
}

// The first element that the hedges at two places share.
pub fn first_shared(k: &[u16], left: usize, right: usize) -> Option<Spots>
    ensures { result ≡ first_shared k.now left right }
{
    let mut i = left;
    let mut x = word(k, left);
    while x != 0 {
        let e = element_end(k, i);
        let p = equal_element(k, i, e, right);
        if p < k.len() {
            let q = element_end(k, p);
            return Some(Spots {
                left: i,
                after: e,
                right: p,
                behind: q,
            });
        }
        i = e;
        x = word(k, i);
    }
    None
}
