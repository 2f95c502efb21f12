// Calls on a conjunction's words alone, whatever stands there.
#![tactic(auto)]

ghost use Rattle.std.specs.Prelude.{◌+◌, ◌<◌, min, ◌≡◌, ◌||◌, length, get_or, take, drop};
ghost use Rattle.std.proofs.Math.Seq.{slice};
ghost use Rattle.words.specs.Spans.{member};
ghost use Rattle.words.specs.Places.{until_literal, same_list};

// The word at a place, 0 past the end.
pub fn word(k: &[u16], i: usize) -> u16
    ensures { result ≡ get_or k.now i 0 }
{
    if i < k.len() { k[i] } else { 0 }
}

// Whether a word stands in a part.
pub fn stands(k: &[u16], from: usize, to: usize, x: usize) -> bool
    ensures { result ≡ member x (slice from to k.now) }
{
    let end = to.min(k.len());
    for i in from..end {
        if usize::from(k[i]) == x {
            return true;
        }
    }
    false
}

// The place of the next literal, or the length.
pub fn next_literal(k: &[u16], at: usize) -> usize
    requires { at < length k.now }
    ensures { result ≡ at + 1 + until_literal (drop (at + 1) k.now) }
{
    for i in at + 1..k.len() {
        if k[i] == 5000 {
            return i;
        }
        if k[i] == 6000 {
            return i;
        }
    }
    k.len()
}

// Whether a word stands before a literal or behind it.
pub fn elsewhere(k: &[u16], at: usize, end: usize, x: usize) -> bool
    ensures { result ≡ (member x (take at k.now) || member x (drop end k.now)) }
{
    if stands(k, 0, at, x) {
        return true;
    }
    stands(k, end, k.len(), x)
}

// Whether two parts are the same words.
pub fn same_part(k: &[u16], from: usize, to: usize, start: usize, end: usize) -> bool
    ensures { result ≡ same_list (slice from to k.now) (slice start end k.now) }
{
    let m = to.min(k.len());
    let n = end.min(k.len());
    // kept: j goes by hand beside i; a zip of both parts would stop at the shorter and leave their lengths, each cut off at the end, to be compared
    let mut j = start;
    for i in from..m {
        if n <= j || k[i] != k[j] {
            return false;
        }
        j += 1;
    }
    n <= j
}
