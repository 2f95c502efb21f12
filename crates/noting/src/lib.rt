// A step noted in a trail: three words behind those of the steps before it.
#![tactic(auto)]

ghost use Rattle.std.specs.Prelude.{◌*◌, ◌≤◌, ◌<◌, ◌≡◌, length};
ghost use Rattle.noting.specs.Noting.{Noted};

// The words of a step.
const TRIPLE: usize = 3;

// Whether there is room for one step more, so many being noted; where there is, it is noted.
pub fn note_step(trail: &mut [u16], made: usize, rule: usize, literal: usize, swap: bool) -> bool
    requires { (3 * made ≤ length trail.old) × (rule < 65536) × (literal < 65536) }
    ensures { Noted trail.old made rule literal swap result trail.new }
{
    let from = TRIPLE * made;
    if trail.len() - from < TRIPLE {
        return false;
    }
    // kept: both numbers are promised to fit a word, so that `u16::try_from` would bring a case that never comes
    trail[from] = rule as u16;
    trail[from + 1] = literal as u16;
    trail[from + 2] = u16::from(swap);
    true
}
