// Where a hedge and an element end, in words alone.
#![tactic(auto)]

ghost use Rattle.std.specs.Prelude.{◌+◌, ◌≤◌, ◌≡◌, drop};
ghost use Rattle.words.specs.Spans.{opens, span, element_end};

use language::{Kind, classify};
use words::word;

// How many hedges a word opens.
fn opened(x: u16) -> usize
    ensures { result ≡ opens x }
{
    match classify(x) {
        Kind::End => 0,
        Kind::Symbol(_) | Kind::Function(_) => 2,
        _ => 1,
    }
}

// The place after the next hedges.
fn passed(k: &[u16], at: usize, hedges: usize) -> usize
    requires { hedges ≤ 2 }
    ensures { result ≡ at + span hedges (drop at k.now) }
{
    let mut need = hedges;
    for i in at..k.len() {
        if need == 0 {
            return i;
        }
        let more = opened(k[i]);
        need = need - 1 + more;
    }
    at.max(k.len())
}

// The place after the hedge at a place.
pub fn hedge_end(k: &[u16], at: usize) -> usize
    ensures { result ≡ at + span 1 (drop at k.now) }
{
    passed(k, at, 1)
}

// The place after the element at a place, or the place itself where the hedge ends there.
pub fn element_end(k: &[u16], i: usize) -> usize
    ensures { result ≡ element_end k.now i }
{
    let x = word(k, i);
    if x == 0 {
        return i;
    }
    let n = opened(x);
    passed(k, i + 1, n - 1)
}
