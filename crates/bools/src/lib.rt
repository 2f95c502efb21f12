// Truths made and put together by a call, so that a proof has no branch for them.
#![tactic(auto)]

ghost use Rattle.std.specs.Prelude.{◌≡◌, not, ◌&&◌, ◌||◌, eqb};

pub fn and(a: bool, b: bool) -> bool
    ensures { result ≡ (a && b) }
{
    a && b
}

pub fn or(a: bool, b: bool) -> bool
    ensures { result ≡ (a || b) }
{
    a || b
}

pub fn neither(a: bool, b: bool) -> bool
    ensures { result ≡ not (a || b) }
{
    !(a || b)
}

// Whether a number is not 0.
pub fn truth(n: u32) -> bool
    ensures { result ≡ not (eqb n 0) }
{
    n != 0
}
