// A part made into equations p = ε.
ghost use Rattle.std.specs.Prelude.{◌+◌, ◌≤◌, [], ◌∷◌, length};
ghost use Rattle.std.proofs.Math.Seq.{slice};
ghost use Rattle.plans.specs.Results.{empty_each};
ghost use Rattle.slices.specs.Written.{Wrote};

use slices::within;

// The equation p = ε.
fn empty_one(p: u16, out: &mut [u16], at: usize) -> usize
    requires { at + 4 ≤ length out.old }
    ensures { Wrote out.old at (5000 ∷ p ∷ 0 ∷ 0 ∷ []) out.new result }
{
    out[at] = 5000;
    out[at + 1] = p;
    out[at + 2] = 0;
    out[at + 3] = 0;
    at + 4
}

// For each word p of a part the equation p = ε.
pub fn empty_each(k: &[u16], from: usize, to: usize, out: &mut [u16], at: usize) -> usize
    requires { at + length (empty_each (slice from to k.now)) ≤ length out.old }
    ensures { Wrote out.old at (empty_each (slice from to k.now)) out.new result }
{
    let end = within(k, to);
    let mut e = at;
    for i in from..end {
        e = empty_one(k[i], out, e);
    }
    e
}
