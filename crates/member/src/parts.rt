// What a term may be in an expression of two parts or of any number, from what it may be in its parts.
ghost use Rattle.std.specs.Prelude.{◌<◌, length};
ghost use Rattle.member.specs.Places.{Enters, Follows, Keeps, Together};

use crate::Step;
use bools::{and, or};

// Whether a term may be the first of the first part of what the word x begins. m: of the whole; old: the first part may have ended before.
pub fn enters(x: u16, m: bool, old: bool) -> bool
    ensures { Enters x m old result }
{
    if x == 7003 {
        return or(m, old);
    }
    m
}

// The same of the second part. null: the first part may be empty.
pub fn follows(x: u16, m: bool, old: bool, null: bool) -> bool
    ensures { Follows x m old null result }
{
    if x == 7001 {
        return or(old, and(m, null));
    }
    m
}

// Keeps whether the first part may end here, which a choice does not ask.
pub fn keep(k: &mut [bool], at: usize, x: u16, fin: bool)
    requires { at < length k.old }
    ensures { Keeps k.old at x fin k.new }
{
    if x == 7002 {
        return;
    }
    k[at] = fin;
}

// A concatenation or a choice, after its two parts.
pub fn together(x: u16, a: Step, b: Step) -> Step
    ensures { Together x a b result }
{
    if x == 7001 {
        return Step {
            end: b.end,
            null: and(a.null, b.null),
            fin: or(and(a.fin, b.null), b.fin),
        };
    }
    Step {
        end: b.end,
        null: or(a.null, b.null),
        fin: or(a.fin, b.fin),
    }
}
