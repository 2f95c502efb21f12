// Expressions standing in words: where one ends, and whether it is nullable.
#![tactic(auto)]

ghost use Rattle.expressions.specs.Standing.{Parted};

use bools::{and, or};

// Of an expression in the words: the place after it, whether it is nullable, whether it is eps.
#[derive(Clone, Copy)]
pub struct Part {
    pub end: usize,
    pub null: bool,
    pub bare: bool,
}

// Passes the expression at a place.
pub fn pass(k: &[u16], at: usize) -> Part
    ensures { Parted k.now at result }
{
    if k.len() <= at {
        return Part {
            end: at,
            null: false,
            bare: false,
        };
    }
    let x = k[at];
    if x == 7000 {
        return Part {
            end: at + 1,
            null: true,
            bare: true,
        };
    }
    let a = pass(k, at + 1);
    let mid = a.end;
    if x == 7003 {
        return Part {
            end: mid,
            null: true,
            bare: false,
        };
    }
    if x < 7000 {
        return Part {
            end: mid,
            null: false,
            bare: false,
        };
    }
    let b = pass(k, mid);
    let end = b.end;
    if x == 7001 {
        let null = and(a.null, b.null);
        return Part {
            end,
            null,
            bare: false,
        };
    }
    let null = or(a.null, b.null);
    Part {
        end,
        null,
        bare: false,
    }
}
