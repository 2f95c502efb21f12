// A word that the symbol of a number stands for.
#![tactic(auto)]

ghost use Rattle.std.specs.Prelude.{◌+◌, ◌≤◌, ◌<◌, ◌≡◌, eqb, length, get_or};
ghost use Rattle.std.proofs.Math.Seq.{slice};
ghost use Rattle.language.specs.Kinds.{pick};
ghost use Rattle.slices.specs.Written.{Wrote};
ghost use Rattle.orders.specs.Orders.{plenty, renamed};

use slices::within;
use words::word;

// One word.
fn rename_word(x: u16, old: u16, new: u16) -> u16
    ensures { result ≡ pick (eqb old x) new x }
{
    if old == x { new } else { x }
}

// A part with `new` for each word that is `old`.
fn rename(
    k: &[u16],
    from: usize,
    to: usize,
    old: u16,
    new: u16,
    out: &mut [u16],
    at: usize,
) -> usize
    requires { at + length (slice from to k.now) ≤ length out.old }
    ensures { Wrote out.old at (renamed old new (slice from to k.now)) out.new result }
{
    let end = within(k, to);
    // kept: e is where the next word goes, in another slice than i, and is the answer
    let mut e = at;
    for i in from..end {
        out[e] = rename_word(k[i], old, new);
        e += 1;
    }
    e
}

// A part with the symbol of that number for each word that is the one at `old`.
pub fn write_named(
    k: &[u16],
    from: usize,
    to: usize,
    old: usize,
    number: usize,
    out: &mut [u16],
    at: usize,
) -> usize
    requires { (number < plenty) × (at + length (slice from to k.now) ≤ length out.old) }
    ensures { Wrote out.old at (renamed (get_or k.now old 0) (3000 + number) (slice from to k.now)) out.new result }
{
    let x = word(k, old);
    let name = (3000 + number) as u16;
    rename(k, from, to, x, name, out, at)
}
