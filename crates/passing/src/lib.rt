// Complete hedges in words: the place after one; and marks beside the words.
#![tactic(auto)]

ghost use Rattle.std.specs.Prelude.{◌≡◌, ◌+◌, ◌-◌, ◌≤◌, ◌<◌, eqb, length};
ghost use Rattle.language.specs.Kinds.{pick};
ghost use Rattle.passing.specs.Places.{Hedge, Skipped, Cleared};

// One hedge more to pass for a symbol, one less for a 0.
fn deeper(word: u16, depth: usize) -> usize
    requires depth_nonzero { 0 < depth }
    requires depth_bound { depth < 18446744073709551615 }
    ensures { result ≡ pick (eqb word 0) (depth - 1) (depth + 1) }
{
    if word == 0 { depth - 1 } else { depth + 1 }
}

// The place after the hedge at j. Counting how many hedges are still to be passed, so that nesting costs no stack.
pub fn skip(h: &[u16], j: usize) -> usize
    requires { Hedge h.now j }
    ensures { Skipped h.now j result }
{
    let mut i = j;
    let mut depth: usize = 1;
    while 0 < depth {
        depth = deeper(h[i], depth);
        i += 1;
    }
    i
}

// No marks from one place to another.
pub fn clear(k: &mut [bool], from: usize, to: usize)
    requires from_le_to { from ≤ to }
    requires to_in_bounds { to ≤ length k.old }
    ensures { Cleared k.old k.new from to }
{
    k[from..to].fill(false);
}
